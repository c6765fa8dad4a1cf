// What an ordered composite's children are told: reached with it where it reaches them, a halt called on those after the stop, and on all of them where
// it is halted itself.
ghost use Rattle.std.specs.Prelude.{◌+◌, ◌≤◌, ◌<◌};
ghost use Rattle.builder_table.specs.Loans.{memory, standing, Leaves};
ghost use Rattle.lower_passes.specs.Reach.{spread_one_in, spread_in};

use builder::Bit;
use builder_table::{Builder, Table};

// The n children's rows begin at `row`. Their entries begin at depth d, the last child's first, so that the first child's is on top.
#[tactic(auto, unfolding(lower_passes::specs::Reach::spread_in))]
pub fn spread(b: &mut Builder, reached: Bit, halted: Bit, row: usize, d: usize, n: usize)
    requires { (row + n ≤ 128) × (d + n ≤ 128) }
    ensures { Leaves b.old b.new (spread_in (memory b.old) (standing b.old) reached.0 halted.0 row d 0 n) }
{
    for k in 0..n {
        spread_one(b, reached, halted, row + k, d + (n - (k + 1)));
    }
}

#[tactic(auto, unfolding(lower_passes::specs::Reach::spread_one_in))]
fn spread_one(b: &mut Builder, reached: Bit, halted: Bit, row: usize, d: usize)
    requires { (row < 128) × (d < 128) }
    ensures { Leaves b.old b.new (spread_one_in (memory b.old) (standing b.old) reached.0 halted.0 row d) }
{
    let reach = Bit(b.load(Table::REACH + row));
    let after = Bit(b.load(Table::AFTER_STOP + row));
    let entered = builder::and(b, reached, reach);
    let stopped = builder::and(b, reached, after);
    let called = builder::or(b, halted, stopped);
    lower_reach_node::put_entry(b, d, entered, called);
}
