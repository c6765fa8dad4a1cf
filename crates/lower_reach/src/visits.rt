// A node of each family on the way down: its entry is taken off the stack, its own bits are made, and its children's entries are put in its place.
ghost use Rattle.std.specs.Prelude.{true, false, ℕ, ◌+◌, ◌≤◌, ◌<◌};
ghost use Rattle.construct.specs.Lower.{leaf, invert, ordered};
ghost use Rattle.builder_table.specs.Loans.{memory, standing};
ghost use Rattle.lower_passes.specs.Loans.{Lowers};
ghost use Rattle.lower_passes.specs.Marks.{down_at};
ghost use Rattle.lower_passes.specs.Reach.{Bounded, node_in};
ghost use Rattle.lower_reach.specs.Visits.{Enters, enter_in, told_in};

use builder::Bit;
use builder_table::{Builder, Table};
use lower_passes::DownMark;

// Whether the node is reached and whether it is halted.
#[derive(Clone, Copy)]
pub struct Entered {
    pub reached: Bit,
    pub halted: Bit,
}

// The node's own bits, from the entry on top of the stack.
#[tactic(auto, unfolding(crate::specs::Visits::enter_in))]
fn enter(b: &mut Builder, v: DownMark, i: usize) -> Entered
    requires { (i < 128) × (0 < v.depth) × (v.depth ≤ 128) }
    ensures { Enters b.old b.new result (enter_in (memory b.old) (down_at (standing b.old) v) i) }
{
    let top = v.depth - 1;
    let reached = Bit(b.load(Table::ENTRY_REACHED + top));
    let called = Bit(b.load(Table::ENTRY_CALLED + top));
    let halted = lower_reach_node::halt_one(b, reached, called, i);
    lower_reach_node::untouched_one(b, reached, halted, i);
    Entered { reached, halted }
}

// A leaf or a constant has no child to tell.
#[tactic(auto, unfolding(crate::specs::Visits::enter_in, lower_passes::specs::Reach::node_in))]
pub fn leaf(b: &mut Builder, v: DownMark, i: usize) -> DownMark
    requires { (i < 128) × Bounded (down_at (standing b.old) v) × (0 < v.depth) }
    ensures lowered { (nodes : ℕ) → Lowers b.old b.new result (node_in (memory b.old) (down_at (standing b.old) v) i leaf nodes) }
    ensures bounded { Bounded (down_at (standing b.new) result) }
{
    enter(b, v, i);
    DownMark {
        depth: v.depth - 1,
        ..v
    }
}

// A decorator's child is told what the decorator was.
#[tactic(auto, unfolding(crate::specs::Visits::enter_in, lower_passes::specs::Reach::node_in))]
pub fn decorator(b: &mut Builder, v: DownMark, i: usize) -> DownMark
    requires { (i < 128) × Bounded (down_at (standing b.old) v) × (0 < v.depth) }
    ensures lowered { (nodes : ℕ) → Lowers b.old b.new result (node_in (memory b.old) (down_at (standing b.old) v) i invert nodes) }
    ensures bounded { Bounded (down_at (standing b.new) result) }
{
    let e = enter(b, v, i);
    lower_reach_node::put_entry(b, v.depth - 1, e.reached, e.halted);
    v
}

// An ordered composite without a cursor.
#[tactic(auto, unfolding(crate::specs::Visits::enter_in, crate::specs::Visits::told_in, lower_passes::specs::Reach::node_in))]
pub fn reactive(b: &mut Builder, v: DownMark, i: usize, n: usize) -> DownMark
    requires bounded { (i < 128) × Bounded (down_at (standing b.old) v) }
    requires ready { (0 < v.depth) × (v.depth + n ≤ 129) × (n ≤ v.row) }
    ensures lowered { (nodes : ℕ) → Lowers b.old b.new result (node_in (memory b.old) (down_at (standing b.old) v) i (ordered false true n) nodes) }
    ensures bounded { Bounded (down_at (standing b.new) result) }
{
    let e = enter(b, v, i);
    tell(b, v, e, n)
}

// An ordered composite with a cursor, whose cell is the next one.
#[tactic(auto, unfolding(crate::specs::Visits::enter_in, crate::specs::Visits::told_in, lower_passes::specs::Reach::node_in))]
pub fn with_cursor(b: &mut Builder, v: DownMark, i: usize, n: usize, nodes: usize) -> DownMark
    requires bounded { (i < 128) × Bounded (down_at (standing b.old) v) × (nodes ≤ 128) }
    requires ready { (0 < v.depth) × (v.depth + n ≤ 129) × (n ≤ v.row) × (v.cell < 128) }
    ensures lowered { Lowers b.old b.new result (node_in (memory b.old) (down_at (standing b.old) v) i (ordered true true n) nodes) }
    ensures bounded { Bounded (down_at (standing b.new) result) }
{
    let e = enter(b, v, i);
    lower_reach_node::next_cursor(b, i, v.cell, nodes);
    let told = tell(b, v, e, n);
    DownMark {
        cell: told.cell + 1,
        ..told
    }
}

// The entries of n children take the place of their parent's.
#[tactic(auto, unfolding(crate::specs::Visits::told_in))]
fn tell(b: &mut Builder, v: DownMark, e: Entered, n: usize) -> DownMark
    requires { Bounded (down_at (standing b.old) v) × (0 < v.depth) × (v.depth + n ≤ 129) × (n ≤ v.row) }
    ensures { Lowers b.old b.new result (told_in (memory b.old) (down_at (standing b.old) v) e.reached.0 e.halted.0 n) }
{
    let top = v.depth - 1;
    let first = v.row - n;
    crate::spreads::spread(b, e.reached, e.halted, first, top, n);
    DownMark {
        depth: top + n,
        row: first,
        cell: v.cell,
    }
}
