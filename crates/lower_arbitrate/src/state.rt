// arbitrate, what each node would return if it were ticked, bottom-up: where the pass stands, and what a node asks of it.
ghost use Rattle.std.specs.Prelude.{◌≡◌, ◌<◌, ◌≤◌};
ghost use Rattle.builder_table.specs.Work.{Standing, saved, stood};
ghost use Rattle.builder_table.specs.Loans.{memory, standing, Leaves};
ghost use Rattle.lower_passes.specs.Flat.{flat_of};
ghost use Rattle.lower_passes.specs.Marks.{up_at};
ghost use Rattle.lower_passes.specs.Arbitrate as Pass;

use builder::Bit;
use builder_table::{Builder, Table};
use lower_passes::{Flat, UpMark};
use status::StatusBits;

// Whether what the node asks for is there: of an ordered composite, its children on the stack, rows for them, and its cursor cell.
pub fn ready(u: UpMark, node: Flat) -> bool
    requires { (u.depth ≤ 128) × (u.row ≤ 128) }
    ensures { (at : Standing) → result ≡ Pass.ready (up_at at u) (flat_of node) }
{
    match node {
        Flat::Leaf => u.depth < 128 && 0 < u.slot,
        Flat::Fixed(_) => u.depth < 128,
        Flat::Invert | Flat::Force(_) => 0 < u.depth,
        Flat::Ordered(memory, _, n) => {
            0 < n && n <= u.depth && u.row + n <= 128 && (!memory || 0 < u.cell)
        }
    }
}

// The status of node i is written, and put at depth d of the stack.
#[tactic(auto, unfolding(lower_passes::specs::Arbitrate::raw_in))]
pub fn put_raw(b: &mut Builder, i: usize, d: usize, x: StatusBits)
    requires { (i < 128) × (d < 128) }
    ensures { Leaves b.old b.new (stood (Pass.raw_in (memory b.old) i d x) (standing b.old)) }
{
    put_status(
        b,
        Table::RAW_SUCCESS + i,
        Table::RAW_FAILURE + i,
        Table::RAW_RUNNING + i,
        x,
    );
    put_status(
        b,
        Table::STACK_SUCCESS + d,
        Table::STACK_FAILURE + d,
        Table::STACK_RUNNING + d,
        x,
    );
}

fn put_status(b: &mut Builder, success: usize, failure: usize, running: usize, x: StatusBits)
    requires { (success < 768) × (failure < 768) × (running < 768) }
    ensures { Leaves b.old b.new (stood (saved (saved (saved (memory b.old) success x.success.0) failure x.failure.0) running x.running.0) (standing b.old)) }
{
    b.save(success, x.success.0);
    b.save(failure, x.failure.0);
    b.save(running, x.running.0);
}

// The status at depth d of the stack.
pub fn status_at(b: &Builder, d: usize) -> StatusBits
    requires { d < 128 }
    ensures { result ≡ Pass.status_in (memory b.now) d }
{
    StatusBits {
        success: Bit(b.load(Table::STACK_SUCCESS + d)),
        failure: Bit(b.load(Table::STACK_FAILURE + d)),
        running: Bit(b.load(Table::STACK_RUNNING + d)),
    }
}
