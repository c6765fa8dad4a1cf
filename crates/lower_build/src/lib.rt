// The building phase: the circuit of a tree in what is lent, from an empty arena and no ops.
#![tactic(auto)]

ghost use Rattle.std.specs.Prelude.{◌≤◌, length};
ghost use Rattle.builder_table.specs.Loans.{memory, Leaves};
ghost use Rattle.lower_passes.specs.Build.{build_in};

use arena_room::Room;
use builder::Bit;
use builder_table::Builder;
use lower_passes::{DownMark, UpMark};

// The input cells are the nodes' flags, the cursors, and three for each leaf. The root is reached, and no halt is called on it.
#[tactic(auto, unfolding(lower_passes::specs::Build::build_in))]
pub fn build(
    b: &mut Builder,
    kinds: &[u8],
    counts: &[u16],
    nodes: usize,
    cursors: usize,
    leaves: usize,
)
    requires { (nodes ≤ 128) × (cursors ≤ 128) × (leaves ≤ 128) × (nodes ≤ length kinds.now) × (nodes ≤ length counts.now) }
    ensures { Leaves b.old b.new (build_in (memory b.old) kinds.now counts.now nodes cursors leaves) }
{
    let base = nodes + cursors;
    b.arena.room = Room { used: 0, ok: true };
    b.ops = 0;
    b.cells = base + 3 * leaves;
    let bottom = UpMark {
        depth: 0,
        row: 0,
        slot: leaves,
        cell: cursors,
    };
    let root = lower_arbitrate::arbitrate(b, kinds, counts, bottom, nodes, base);
    lower_reach_node::put_entry(b, 0, Bit::constant(true), Bit::constant(false));
    let top = DownMark {
        depth: 1,
        row: root.row,
        cell: 0,
    };
    lower_reach::reach(b, kinds, counts, top, nodes);
    lower_reach_node::next_running(b, nodes);
}
