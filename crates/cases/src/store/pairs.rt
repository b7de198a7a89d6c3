// Joining two cells in memory.
ghost use Rattle.std.specs.Prelude.{◌≡◌, ℕ, ◌+◌, ◌*◌, ◌<◌, ◌≤◌, length};
ghost use Rattle.joining.specs.Heap.{refers_in, follow, slot_in, put_kind, put_refers};
ghost use Rattle.joining.specs.Joining.{add_pair, carry_one as one_carried, carry as carried};
ghost use Rattle.joining.specs.Joining.{join as joining};
ghost use Rattle.cases.specs.Memory.{latest, held, heap_in, work_in, Pairs, Joined};
ghost use Rattle.cases.specs.Within.{Within, Beyond};

pub mod joins;
pub mod steps;

use super::{end, fill, kind, refer, set_kind, slot};
use joining::cell::Cell;
use orders::order::Order;

// One pair more that is to be joined, where there is room for it.
#[tactic(auto, using(crate::proofs::Pending::add_full, crate::proofs::Pending::add_more))]
fn add(pending: &mut [(usize, usize)], count: usize, room: usize, pair: (usize, usize)) -> usize
    requires { (count ≤ room) × (room ≤ length pending.old) }
    ensures within { result ≤ room }
    ensures pairs { latest pending.new result ≡ add_pair room pair (latest pending.old count) }
{
    if count == room {
        return count;
    }
    pending[count] = pair;
    count + 1
}

// What the second end has for a feature, the first has too: its empty slot is filled, or two contents are to be joined.
#[tactic(auto, unfolding(joining::specs::Joining::carry_one))]
fn carry_one(
    slots: &mut [Option<usize>],
    pending: &mut [(usize, usize)],
    count: usize,
    room: usize,
    features: usize,
    first: usize,
    second: usize,
    feature: usize,
) -> usize
    requires { (count ≤ room) × (room ≤ length pending.old) }
    ensures within { result ≤ room }
    ensures held { held slots.new pending.new result ≡ one_carried room features first feature (slot_in slots.old features first feature) (slot_in slots.old features second feature) (held slots.old pending.old count) }
{
    match slot(slots, features, second, feature) {
        Some(theirs) => match slot(slots, features, first, feature) {
            Some(mine) => add(pending, count, room, (mine, theirs)),
            None => {
                fill(slots, features, first, feature, theirs);
                count
            }
        },
        None => count,
    }
}

// The same for each feature, from the lowest.
#[tactic(auto, using(crate::proofs::Pending::carry_none, crate::proofs::Pending::carry_more))]
fn carry(
    slots: &mut [Option<usize>],
    pending: &mut [(usize, usize)],
    count: usize,
    room: usize,
    features: usize,
    first: usize,
    second: usize,
) -> usize
    requires { (count ≤ room) × (room ≤ length pending.old) }
    ensures within { result ≤ room }
    ensures held { held slots.new pending.new result ≡ carried room features first second features (held slots.old pending.old count) }
{
    let mut count = count;
    for feature in 0..features {
        count = carry_one(
            slots, pending, count, room, features, first, second, feature,
        );
    }
    count
}

// The two ends of a pair.
fn ends<K>(cells: &[Cell<K>], pair: (usize, usize)) -> (usize, usize)
    ensures { (top : K) → result ≡ (follow (refers_in top cells.now) (length cells.now) pair.0, follow (refers_in top cells.now) (length cells.now) pair.1) }
{
    (end(cells, pair.0), end(cells, pair.1))
}

// Gives the first end this kind and has the second refer to it. The second's kind and slots stay.
fn bind<K: Copy>(cells: &mut [Cell<K>], first: usize, second: usize, kind: K)
    ensures { (top : K) → cells.new ≡ put_refers top (put_kind top cells.old first kind) second first }
{
    set_kind(cells, first, kind);
    refer(cells, second, first);
}

// Joins one pair, and answers how many are to be joined then; or none where it clashes.
fn join_pair<O: Order>(
    order: &O,
    cells: &mut [Cell<O::Kind>],
    slots: &mut [Option<usize>],
    pending: &mut [(usize, usize)],
    count: usize,
    room: usize,
    features: usize,
    pair: (usize, usize),
) -> Option<usize>
    requires { (count ≤ room) × (room ≤ length pending.old) }
    ensures { (used : ℕ) → Pairs (O.meaning order.now) room pair (work_in used features cells.old slots.old pending.old count) (work_in used features cells.new slots.new pending.new) result }
{
    let (first, second) = ends(cells, pair);
    if first == second {
        return Some(count);
    }
    match order.common(kind(order, cells, first), kind(order, cells, second)) {
        Some(common) => {
            bind(cells, first, second, common);
            Some(carry(slots, pending, count, room, features, first, second))
        }
        None => None,
    }
}

// Joins two cells and all that follows: whether no kinds clash. At a clash the memory is left as it is by then.
fn join<O: Order>(
    order: &O,
    cells: &mut [Cell<O::Kind>],
    slots: &mut [Option<usize>],
    pending: &mut [(usize, usize)],
    features: usize,
    first: usize,
    second: usize,
) -> bool
    requires { length cells.old * features < length pending.old }
    ensures answer { (used : ℕ) → Joined (joining (O.meaning order.now) first second (heap_in used features cells.old slots.old)) (heap_in used features cells.new slots.new) result }
    ensures beyond { (n : ℕ) → first < n → second < n → Within n features cells.old slots.old (O.meaning order.now).widest → Beyond n features cells.old slots.old cells.new slots.new }
{
    let room = cells.len() * features + 1;
    pending[0] = (first, second);
    let mut count = 1;
    for turn in 0..room {
        if count == 0 {
            return true;
        }
        count -= 1;
        let pair = pending[count];
        match join_pair(order, cells, slots, pending, count, room, features, pair) {
            Some(more) => count = more,
            None => return false,
        }
    }
    true
}
