// The table of kinds: "Each kind's name, length and family stand in one fixed table."
#![tactic(auto)]

ghost use Rattle.std.specs.Prelude.{◌≡◌, option_map};
ghost use Rattle.tree_kinds.specs.Kinds.{shown, row_of};

// What a kind's nodes have below them. Kinds of the family Never are known and not lowered.
#[derive(Clone, Copy)]
pub enum Family {
    Leaf,
    Composite,
    Decorator,
    Never,
}

// A kind's row: its name, the length that its records have, and its family.
#[derive(Clone, Copy)]
pub struct Row {
    pub name: &'static str,
    pub size: u16,
    pub family: Family,
}

// Numbers of kinds: their places in the table, counted from 1.
pub mod kind {
    pub const LEAF: u8 = 1;

    pub const SEQUENCE: u8 = 4;

    pub const FALLBACK: u8 = 6;
}

// Kinds 1 to 18.
static ROWS: [Row; 18] = [
    Row {
        name: "Leaf",
        size: 2,
        family: Family::Leaf,
    },
    Row {
        name: "AlwaysSuccess",
        size: 2,
        family: Family::Leaf,
    },
    Row {
        name: "AlwaysFailure",
        size: 2,
        family: Family::Leaf,
    },
    Row {
        name: "Sequence",
        size: 4,
        family: Family::Composite,
    },
    Row {
        name: "ReactiveSequence",
        size: 4,
        family: Family::Composite,
    },
    Row {
        name: "Fallback",
        size: 4,
        family: Family::Composite,
    },
    Row {
        name: "ReactiveFallback",
        size: 4,
        family: Family::Composite,
    },
    Row {
        name: "Inverter",
        size: 2,
        family: Family::Decorator,
    },
    Row {
        name: "ForceSuccess",
        size: 2,
        family: Family::Decorator,
    },
    Row {
        name: "ForceFailure",
        size: 2,
        family: Family::Decorator,
    },
    Row {
        name: "Sleep",
        size: 0,
        family: Family::Never,
    },
    Row {
        name: "Parallel",
        size: 0,
        family: Family::Never,
    },
    Row {
        name: "IfThenElse",
        size: 0,
        family: Family::Never,
    },
    Row {
        name: "WhileDoElse",
        size: 0,
        family: Family::Never,
    },
    Row {
        name: "Timeout",
        size: 0,
        family: Family::Never,
    },
    Row {
        name: "Repeat",
        size: 0,
        family: Family::Never,
    },
    Row {
        name: "RetryUntilSuccessful",
        size: 0,
        family: Family::Never,
    },
    Row {
        name: "KeepRunningUntilFailure",
        size: 0,
        family: Family::Never,
    },
];

// The row of a kind, if the table has one.
pub fn row_of(kind: u16) -> Option<Row>
    ensures { option_map shown result ≡ row_of kind }
{
    let i = usize::from(kind).checked_sub(1)?;
    ROWS.get(i).copied()
}
