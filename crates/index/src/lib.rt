// Three sorts of number that are kept apart, as `Wire` is in wire.rs: a position in one table is never read in another.
#![tactic(auto)]

ghost use Rattle.std.specs.Prelude.{◌≡◌};

// A position in a circuit's value table: an input cell or, past the cells, an op's value.
#[derive(Clone, Copy)]
pub struct Wire(pub u32);

impl Wire {
    pub fn position(self) -> usize
        ensures { result ≡ self.0 }
    {
        self.0 as usize
    }
}

// A node's number: nodes are numbered from 0 in pre-order.
#[derive(Clone, Copy)]
pub struct NodeIndex(pub usize);

impl NodeIndex {
    // "At most 128 nodes": the number of the first node past the limit.
    pub const LIMIT: usize = 128;
}

// A cursor cell's number: each memory composite owns one, claimed in pre-order.
#[derive(Clone, Copy)]
pub struct CursorCell(pub usize);
