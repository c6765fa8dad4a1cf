// A node on the way down: its entry on the stack, whether it is halted, and whether it is left alone.
ghost use Rattle.std.specs.Prelude.{◌<◌};
ghost use Rattle.builder_table.specs.Work.{stood};
ghost use Rattle.builder_table.specs.Loans.{memory, standing, Makes, Leaves};
ghost use Rattle.lower_passes.specs.Reach.{entry_in, halt_in, untouched_in};

use builder::Bit;
use builder_table::{Builder, Table};
use index::Wire;

// The entry at depth d of the stack.
#[tactic(auto, unfolding(lower_passes::specs::Reach::entry_in))]
pub fn put_entry(b: &mut Builder, d: usize, reached: Bit, called: Bit)
    requires { d < 128 }
    ensures { Leaves b.old b.new (stood (entry_in (memory b.old) d reached.0 called.0) (standing b.old)) }
{
    b.save(Table::ENTRY_REACHED + d, reached.0);
    b.save(Table::ENTRY_CALLED + d, called.0);
}

// Halted: a halt is called on the node, and it was running.
#[tactic(auto, unfolding(lower_passes::specs::Reach::halt_in))]
pub fn halt_one(b: &mut Builder, reached: Bit, called: Bit, i: usize) -> Bit
    requires { i < 128 }
    ensures { Makes b.old b.new result.0 (halt_in (memory b.old) (standing b.old) reached.0 called.0 i) }
{
    let flag = Bit(b.wire_form(Wire(i as u32)));
    let halted = builder::and(b, called, flag);
    b.save(Table::REACHED + i, reached.0);
    b.save(Table::HALTED + i, halted.0);
    halted
}

// Untouched: neither reached nor halted.
#[tactic(auto, unfolding(lower_passes::specs::Reach::untouched_in, builder_table::specs::Steps::one_minus_in))]
pub fn untouched_one(b: &mut Builder, reached: Bit, halted: Bit, i: usize)
    requires { i < 128 }
    ensures { Leaves b.old b.new (untouched_in (memory b.old) (standing b.old) reached.0 halted.0 i) }
{
    let not_reached = builder::not(&mut b.arena, reached);
    let not_halted = builder::not(&mut b.arena, halted);
    let untouched = builder::and(b, not_reached, not_halted);
    b.save(Table::UNTOUCHED + i, untouched.0);
}
