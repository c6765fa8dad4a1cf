// Next running: a node's flag is its running bit if it is reached, and its present flag if it is untouched.
ghost use Rattle.std.specs.Prelude.{◌≤◌, ◌<◌};
ghost use Rattle.builder_table.specs.Loans.{memory, standing, Leaves};
ghost use Rattle.lower_passes.specs.Reach.{flag_in, flags_in};

use builder::Bit;
use builder_table::{Builder, Table};
use index::Wire;

#[tactic(auto, unfolding(lower_passes::specs::Reach::flags_in))]
pub fn next_running(b: &mut Builder, nodes: usize)
    requires { nodes ≤ 128 }
    ensures { Leaves b.old b.new (flags_in (memory b.old) (standing b.old) 0 nodes) }
{
    for i in 0..nodes {
        flag_one(b, i);
    }
}

// To the running bit of a node that is reached, the present flag is added where the node is untouched.
#[tactic(auto, unfolding(lower_passes::specs::Reach::flag_in))]
fn flag_one(b: &mut Builder, i: usize)
    requires { i < 128 }
    ensures { Leaves b.old b.new (flag_in (memory b.old) (standing b.old) i) }
{
    let reached = Bit(b.load(Table::REACHED + i));
    let running = Bit(b.load(Table::RAW_RUNNING + i));
    let runs = builder::and(b, reached, running);
    let untouched = Bit(b.load(Table::UNTOUCHED + i));
    let flag = Bit(b.wire_form(Wire(i as u32)));
    let kept = builder::and(b, untouched, flag);
    let next = b.plus(runs.0, kept.0);
    b.save(Table::NEXT_RUNNING + i, next);
}
