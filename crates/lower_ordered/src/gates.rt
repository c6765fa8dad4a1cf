// The first two loops of lower_ordered: for each child, whether the cursor already passed it (`before`), whether the walk cannot get past it (`blocked`),
// and whether every earlier child was passed (`clear`). The sum of the earlier `blocked` bits is carried from child to child.
ghost use Rattle.std.specs.Prelude.{◌+◌, ◌≤◌, ◌<◌};
ghost use Rattle.exact.specs.Whole.{zero32};
ghost use Rattle.wire.specs.Terms.{constant_form};
ghost use Rattle.builder_table.specs.Loans.{memory, standing, Makes, Leaves};
ghost use Rattle.lower_passes.specs.Gates.{block_in, gate_in, gates_in, clear_in, clears_in};

use builder::{Bit, Count};
use builder_table::{Builder, Table};
use wire::Form;

// The forms that children must hold to be passed stand in the n slots up to `top`, the first child's at the top.
#[tactic(auto, unfolding(lower_passes::specs::Gates::gates_in))]
pub fn gates(b: &mut Builder, cursor: Form, top: usize, n: usize)
    requires { (n ≤ 128) × (n ≤ top + 1) × (top < 2560) }
    ensures { Leaves b.old b.new (gates_in (memory b.old) (standing b.old) cursor top 0 n) }
{
    for k in 0..n {
        let passes = Bit(b.load(top - k));
        gate_one(b, Count(cursor), passes, k);
    }
}

#[tactic(auto, using(exact::proofs::Whole::of_nat_diff), unfolding(lower_passes::specs::Gates::gate_in))]
fn gate_one(b: &mut Builder, cursor: Count, passes: Bit, k: usize)
    requires { k < 128 }
    ensures { Leaves b.old b.new (gate_in (memory b.old) (standing b.old) cursor.0 passes.0 k) }
{
    let later = builder::at_least(b, cursor, (k + 1) as f32);
    b.save(Table::BEFORE + k, later.0);
    block_one(b, later, passes, k);
}

#[tactic(auto, unfolding(lower_passes::specs::Gates::block_in, builder_table::specs::Steps::one_minus_in))]
fn block_one(b: &mut Builder, later: Bit, passes: Bit, k: usize)
    requires { k < 128 }
    ensures { Leaves b.old b.new (block_in (memory b.old) (standing b.old) later.0 passes.0 k) }
{
    let passed = builder::or(b, later, passes);
    let blocked = builder::not(&mut b.arena, passed);
    b.save(Table::BLOCKED + k, blocked.0);
}

#[tactic(auto, unfolding(lower_passes::specs::Gates::clears_in))]
pub fn clears(b: &mut Builder, n: usize)
    requires { n ≤ 128 }
    ensures { Leaves b.old b.new (clears_in (memory b.old) (standing b.old) (constant_form zero32) 0 n) }
{
    let mut earlier = Form::constant(0.0);
    for k in 0..n {
        earlier = clear_one(b, earlier, k);
    }
}

// The answer is the sum of the `blocked` bits with this child's.
#[tactic(auto, unfolding(lower_passes::specs::Gates::clear_in))]
fn clear_one(b: &mut Builder, earlier: Form, k: usize) -> Form
    requires { k < 128 }
    ensures { Makes b.old b.new result (clear_in (memory b.old) (standing b.old) earlier k) }
{
    let clear = builder::is_zero(b, Count(earlier));
    b.save(Table::CLEAR + k, clear.0);
    let blocked = b.load(Table::BLOCKED + k);
    b.plus(earlier, blocked)
}
