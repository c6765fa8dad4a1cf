// arbitrate's ordered composites: what one would return, from what its children would.
ghost use Rattle.std.specs.Prelude.{◌≡◌, ◌+◌, ◌≤◌, ◌<◌};
ghost use Rattle.builder_table.specs.Work.{Standing};
ghost use Rattle.builder_table.specs.Loans.{memory, standing};
ghost use Rattle.lower_passes.specs.Loans.{Decides, Raises};
ghost use Rattle.lower_passes.specs.Marks.{ordered_at, up_at};
ghost use Rattle.lower_passes.specs.Arbitrate as Pass;

use builder::Bit;
use builder_table::{Builder, Table};
use index::Wire;
use lower_ordered::{Tops, lower_ordered};
use lower_passes::{Decision, UpMark};
use status::StatusBits;
use wire::Form;

// A composite with a cursor. Cursor cells are given from the last to the first; they follow the nodes'.
#[tactic(auto, unfolding(lower_passes::specs::Arbitrate::memory_in))]
pub fn up_memory(b: &mut Builder, u: UpMark, i: usize, on: bool, n: usize, nodes: usize) -> UpMark
    requires { (i < 128) × Pass.Bounded (up_at (standing b.old) u) × (0 < n) × (n ≤ u.depth) × (u.row + n ≤ 128) × (0 < u.cell) × (nodes ≤ 128) }
    ensures raised { Raises b.old b.new result (Pass.memory_in (memory b.old) (up_at (standing b.old) u) i on n nodes) }
    ensures bounded { Pass.Bounded (up_at (standing b.new) result) }
{
    let cell = u.cell - 1;
    let cursor = b.wire_form(Wire((nodes + cell) as u32));
    up_composite(b, UpMark { cell, ..u }, i, on, cursor, n)
}

// The children's statuses leave the stack, and the composite's takes the place of the last one's.
#[tactic(auto, unfolding(lower_passes::specs::Arbitrate::composite_in))]
pub fn up_composite(
    b: &mut Builder,
    u: UpMark,
    i: usize,
    on: bool,
    cursor: Form,
    n: usize,
) -> UpMark
    requires { (i < 128) × Pass.Bounded (up_at (standing b.old) u) × (0 < n) × (n ≤ u.depth) × (u.row + n ≤ 128) }
    ensures raised { Raises b.old b.new result (Pass.composite_in (memory b.old) (up_at (standing b.old) u) i on cursor n) }
    ensures bounded { Pass.Bounded (up_at (standing b.new) result) }
{
    let decided = lowered(b, cursor, on, u.depth - 1, u.row, n);
    crate::state::put_raw(b, i, u.depth - n, status_of(on, decided));
    b.save(Table::ARBITRATED + i, decided.cursor);
    UpMark {
        depth: u.depth - n + 1,
        row: u.row + n,
        ..u
    }
}

// lower_ordered over the children on top of the stack, where success (true) or failure advances.
fn lowered(b: &mut Builder, cursor: Form, on: bool, top: usize, row: usize, n: usize) -> Decision
    requires { (top < 128) × (n ≤ top + 1) × (row + n ≤ 128) }
    ensures { Decides b.old b.new result (Pass.lowered_in (memory b.old) (standing b.old) cursor on top row n) }
{
    let success = Table::STACK_SUCCESS + top;
    let failure = Table::STACK_FAILURE + top;
    let run = Table::STACK_RUNNING + top;
    let tops = if on {
        Tops {
            advance: success,
            other: failure,
            run,
        }
    } else {
        Tops {
            advance: failure,
            other: success,
            run,
        }
    };
    lower_ordered(b, cursor, tops, row, n)
}

fn status_of(on: bool, d: Decision) -> StatusBits
    ensures { (at : Standing) → result ≡ Pass.status_of on (ordered_at at d) }
{
    let advance = Bit(d.advance);
    let other = Bit(d.other);
    let running = Bit(d.run);
    if on {
        StatusBits {
            success: advance,
            failure: other,
            running,
        }
    } else {
        StatusBits {
            success: other,
            failure: advance,
            running,
        }
    }
}
