// A cursor's next value: the arbitrated one if its composite is reached, and the present one if that is untouched. A halt puts it back to 0.
ghost use Rattle.std.specs.Prelude.{◌≤◌, ◌<◌};
ghost use Rattle.builder_table.specs.Loans.{memory, standing, Leaves};
ghost use Rattle.lower_passes.specs.Reach.{keep_in, cursor_in};

use builder_table::{Builder, Table};
use index::Wire;
use wire::Form;

#[tactic(auto, unfolding(lower_passes::specs::Reach::cursor_in))]
pub fn next_cursor(b: &mut Builder, i: usize, cell: usize, nodes: usize)
    requires { (i < 128) × (cell < 128) × (nodes ≤ 128) }
    ensures { Leaves b.old b.new (cursor_in (memory b.old) (standing b.old) i cell nodes) }
{
    let cursor = b.load(Table::ARBITRATED + i);
    let reached = b.load(Table::REACHED + i);
    let moved = b.push(cursor, reached);
    let untouched = b.load(Table::UNTOUCHED + i);
    keep_cursor(b, moved, untouched, cell, nodes);
}

// To the arbitrated cursor, which is 0 where the node is not reached, the current one is added where the node is untouched.
#[tactic(auto, unfolding(lower_passes::specs::Reach::keep_in))]
fn keep_cursor(b: &mut Builder, moved: Form, untouched: Form, cell: usize, nodes: usize)
    requires { (cell < 128) × (nodes ≤ 128) }
    ensures { Leaves b.old b.new (keep_in (memory b.old) (standing b.old) moved untouched cell nodes) }
{
    let now = b.wire_form(Wire((nodes + cell) as u32));
    let kept = b.push(now, untouched);
    let next = b.plus(moved, kept);
    b.save(Table::NEXT_CURSOR + cell, next);
}
