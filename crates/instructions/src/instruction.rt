// Instructions over registers, of which a term has one for each of its variables, and the two modes in which they are run.

#[derive(Clone, Copy, PartialEq, Eq, Debug)]
pub enum Instruction {
    // The register is a new cell.
    PushCell {
        register: usize,
    },
    // The register's cell has this kind, a number among the term's kinds.
    SetSort {
        register: usize,
        kind: usize,
    },
    // The feature of the register leads to the value, a register too.
    SetFeature {
        register: usize,
        feature: usize,
        value: usize,
    },
    // The register is narrowed to the kind, a number among the term's kinds.
    IntersectSort {
        register: usize,
        kind: usize,
    },
    // The value is what the feature of the register leads to. Where it leads nowhere, the write code goes on at the label.
    TestFeature {
        register: usize,
        feature: usize,
        value: usize,
        depth: usize,
        label: usize,
    },
    // What the feature of the register leads to is joined with the value.
    UnifyFeature {
        register: usize,
        feature: usize,
        value: usize,
    },
    // Where writing began at this depth or deeper, the read code goes on at the label.
    WriteTest {
        depth: usize,
        label: usize,
    },
}

// Reading, or writing what is to stand under a variable of this depth.
#[derive(Clone, Copy, PartialEq, Eq, Debug)]
pub enum Mode {
    Read,
    Write { depth: usize },
}
