// Where each input cell lies: the running flags, the cursors, and three cells for each leaf.
ghost use Rattle.std.specs.Prelude.{◌≡◌, ◌+◌, ◌*◌};
ghost use Rattle.plan.specs.Cells.{running_cell, cursor_cell, leaf_cell, leaf_status_cell, cell_count};
ghost use Rattle.plan.specs.Cells.{offset_of, wire};

use index::{CursorCell, NodeIndex, Wire};

// How many nodes, cursors and leaves a tree has: all that the cells' places hang on.
#[derive(Clone, Copy)]
pub struct Plan {
    pub nodes: usize,
    pub cursors: usize,
    pub leaves: usize,
}

// What a leaf answers.
#[derive(Clone, Copy)]
pub enum Status {
    Success,
    Failure,
    Running,
}

impl Plan {
    pub fn running_cell(self, node: NodeIndex) -> Wire
        ensures { result.0 ≡ running_cell node.0 }
    {
        wire(node.0)
    }

    pub fn cursor_cell(self, cursor: CursorCell) -> Wire
        ensures { result.0 ≡ cursor_cell self cursor.0 }
    {
        wire(self.nodes.saturating_add(cursor.0))
    }

    // The first of the three cells of a leaf slot.
    pub fn leaf_cell(self, slot: usize) -> Wire
        ensures { result.0 ≡ leaf_cell self slot }
    {
        self.leaf_cell_at(slot, 0)
    }

    pub fn leaf_status_cell(self, slot: usize, status: Status) -> Wire
        ensures { result.0 ≡ leaf_status_cell self slot status }
    {
        self.leaf_cell_at(slot, status.offset())
    }

    pub fn cell_count(self) -> usize
        ensures { result ≡ cell_count self }
    {
        self.leaf_cell(self.leaves).position()
    }

    fn leaf_cell_at(self, slot: usize, offset: usize) -> Wire
        ensures { result.0 ≡ wire (self.nodes + self.cursors + 3 * slot + offset) }
    {
        let leaves_from = self.nodes.saturating_add(self.cursors);
        wire(
            leaves_from
                .saturating_add(slot.saturating_mul(3))
                .saturating_add(offset),
        )
    }
}

impl Status {
    fn offset(self) -> usize
        ensures { result ≡ offset_of self }
    {
        match self {
            Status::Success => 0,
            Status::Failure => 1,
            Status::Running => 2,
        }
    }
}

// The wire of a cell, or the largest wire where that is less.
fn wire(cell: usize) -> Wire
    ensures { result.0 ≡ wire cell }
{
    Wire(u32::try_from(cell).unwrap_or(u32::MAX))
}
