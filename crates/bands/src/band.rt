// A band of amounts in whole pence: its ends, the limit on them, and whether two numbers are a band.
ghost use Rattle.std.specs.Prelude.{◌≡◌};
ghost use Rattle.bands.specs.Bands.{is_band};

// How far from 0 an end may lie.
pub const LIMIT: i64 = 1_000_000_000_000;

// The band that every band lies within.
pub const WIDEST: Band = Band {
    low: -LIMIT,
    high: LIMIT,
};

// Any two numbers, and no `Display`: only a band has a text, and it is put into lent memory. They are a band if the lowest is not above the highest and both are within the limit.
#[derive(Clone, Copy, PartialEq, Eq, Debug)]
pub struct Band {
    pub low: i64,
    pub high: i64,
}

impl Band {
    pub fn is_band(&self) -> bool
        ensures { result ≡ is_band self.now }
    {
        -LIMIT <= self.low && self.low <= self.high && self.high <= LIMIT
    }
}
