// arbitrate: from the last node to the first, what each would return if it were ticked.
#![tactic(auto)]

mod composites;
mod nodes;
mod state;

ghost use Rattle.std.specs.Prelude.{true, ◌≡◌, ◌≤◌, ◌<◌, length};
ghost use Rattle.builder_table.specs.Loans.{memory, standing};
ghost use Rattle.lower_passes.specs.Flat.{flat_of};
ghost use Rattle.lower_passes.specs.Loans.{Raises};
ghost use Rattle.lower_passes.specs.Marks.{up_at};
ghost use Rattle.lower_passes.specs.Arbitrate.{Bounded};
ghost use Rattle.lower_passes.specs.Arbitrate as Pass;

use builder_table::Builder;
use lower_passes::{Flat, UpMark};
use wire::Form;

// The nodes stand in pre-order, so that a node's children come before it here. The leaves' cells begin at base.
#[tactic(auto, unfolding(lower_passes::specs::Arbitrate::arbitrate_in))]
pub fn arbitrate(
    b: &mut Builder,
    kinds: &[u8],
    counts: &[u16],
    start: UpMark,
    nodes: usize,
    base: usize,
) -> UpMark
    requires { Bounded (up_at (standing b.old) start) × (nodes ≤ 128) × (nodes ≤ length kinds.now) × (nodes ≤ length counts.now) × (base ≤ 256) }
    ensures raised { Raises b.old b.new result (Pass.arbitrate_in (memory b.old) (up_at (standing b.old) start) kinds.now counts.now nodes base nodes) }
    ensures bounded { Bounded (up_at (standing b.new) result) }
{
    let mut u = start;
    for i in (0..nodes).rev() {
        let node = Flat::of(kinds[i], counts[i] as usize);
        u = up_step(b, u, i, node, nodes, base);
    }
    u
}

#[tactic(auto, unfolding(lower_passes::specs::Arbitrate::step_within, lower_passes::specs::Arbitrate::stuck))]
fn up_step(b: &mut Builder, u: UpMark, i: usize, node: Flat, nodes: usize, base: usize) -> UpMark
    requires { (i < 128) × Bounded (up_at (standing b.old) u) × (nodes ≤ 128) × (base ≤ 256) }
    ensures raised { Raises b.old b.new result (Pass.step_within (memory b.old) (up_at (standing b.old) u) i (flat_of node) nodes base) }
    ensures bounded { Bounded (up_at (standing b.new) result) }
{
    if !crate::state::ready(u, node) {
        // What the node asks for is not there: nothing is done, and the flag falls.
        b.full();
        return u;
    }
    up_node(b, u, i, node, nodes, base)
}

// A node for which all that it asks is there. The cursor of an ordered composite that has none is always 0.
fn up_node(b: &mut Builder, u: UpMark, i: usize, node: Flat, nodes: usize, base: usize) -> UpMark
    requires bounded { (i < 128) × Bounded (up_at (standing b.old) u) × (nodes ≤ 128) × (base ≤ 256) }
    requires ready { Pass.ready (up_at (standing b.old) u) (flat_of node) ≡ true }
    ensures raised { Raises b.old b.new result (Pass.node_in (memory b.old) (up_at (standing b.old) u) i (flat_of node) nodes base) }
    ensures bounded { Bounded (up_at (standing b.new) result) }
{
    match node {
        Flat::Leaf => crate::nodes::up_leaf(b, u, i, base),
        Flat::Fixed(success) => crate::nodes::up_fixed(b, u, i, success),
        Flat::Invert => crate::nodes::up_invert(b, u, i),
        Flat::Force(success) => crate::nodes::up_force(b, u, i, success),
        Flat::Ordered(true, on, n) => crate::composites::up_memory(b, u, i, on, n, nodes),
        Flat::Ordered(false, on, n) => {
            let cursor = Form::constant(0.0);
            crate::composites::up_composite(b, u, i, on, cursor, n)
        }
    }
}
