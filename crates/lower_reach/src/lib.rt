// reach: from the first node to the last, whether each is ticked or halted. A node that asks for what is not there lowers the flag.
#![tactic(auto)]

mod spreads;
mod visits;

ghost use Rattle.std.specs.Prelude.{true, ◌≡◌, ◌≤◌, ◌<◌, length};
ghost use Rattle.builder_table.specs.Work.{Standing};
ghost use Rattle.builder_table.specs.Loans.{memory, standing};
ghost use Rattle.lower_passes.specs.Flat.{flat_of};
ghost use Rattle.lower_passes.specs.Loans.{Lowers};
ghost use Rattle.lower_passes.specs.Marks.{down_at};
ghost use Rattle.lower_passes.specs.Reach.{Bounded};
ghost use Rattle.lower_passes.specs.Reach as Pass;

use builder_table::Builder;
use lower_passes::{DownMark, Flat};

// The root's entry is on the stack.
#[tactic(auto, unfolding(lower_passes::specs::Reach::reach_in))]
pub fn reach(
    b: &mut Builder,
    kinds: &[u8],
    counts: &[u16],
    start: DownMark,
    nodes: usize,
) -> DownMark
    requires { Bounded (down_at (standing b.old) start) × (nodes ≤ 128) × (nodes ≤ length kinds.now) × (nodes ≤ length counts.now) }
    ensures { Lowers b.old b.new result (Pass.reach_in (memory b.old) (down_at (standing b.old) start) kinds.now counts.now nodes 0 nodes) }
{
    let mut v = start;
    for i in 0..nodes {
        let node = Flat::of(kinds[i], counts[i] as usize);
        v = step(b, v, i, node, nodes);
    }
    v
}

#[tactic(auto, unfolding(lower_passes::specs::Reach::step_within, lower_passes::specs::Reach::stuck))]
fn step(b: &mut Builder, v: DownMark, i: usize, node: Flat, nodes: usize) -> DownMark
    requires { (i < 128) × Bounded (down_at (standing b.old) v) × (nodes ≤ 128) }
    ensures lowered { Lowers b.old b.new result (Pass.step_within (memory b.old) (down_at (standing b.old) v) i (flat_of node) nodes) }
    ensures bounded { Bounded (down_at (standing b.new) result) }
{
    if !ready(v, node) {
        // What the node asks for is not there: nothing is done, and the flag falls.
        b.full();
        return v;
    }
    visit(b, v, i, node, nodes)
}

// Whether what the node asks for is there: its own entry, and room for its children's.
fn ready(v: DownMark, node: Flat) -> bool
    requires { (v.depth ≤ 128) × (v.row ≤ 128) }
    ensures { (at : Standing) → result ≡ Pass.ready (down_at at v) (flat_of node) }
{
    let entry = 0 < v.depth;
    match node {
        Flat::Ordered(remembers, _, n) => {
            entry && n <= v.row && v.depth + n <= 129 && (!remembers || v.cell < 128)
        }
        _ => entry,
    }
}

// A node for which all that it asks is there.
#[tactic(auto, unfolding(lower_passes::specs::Reach::node_in))]
fn visit(b: &mut Builder, v: DownMark, i: usize, node: Flat, nodes: usize) -> DownMark
    requires bounded { (i < 128) × Bounded (down_at (standing b.old) v) × (nodes ≤ 128) }
    requires ready { Pass.ready (down_at (standing b.old) v) (flat_of node) ≡ true }
    ensures lowered { Lowers b.old b.new result (Pass.node_in (memory b.old) (down_at (standing b.old) v) i (flat_of node) nodes) }
    ensures bounded { Bounded (down_at (standing b.new) result) }
{
    match node {
        Flat::Leaf | Flat::Fixed(_) => crate::visits::leaf(b, v, i),
        Flat::Invert | Flat::Force(_) => crate::visits::decorator(b, v, i),
        Flat::Ordered(true, _, n) => crate::visits::with_cursor(b, v, i, n, nodes),
        Flat::Ordered(false, _, n) => crate::visits::reactive(b, v, i, n),
    }
}
