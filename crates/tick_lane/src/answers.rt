// What a tick writes, of the values of the output forms: six a node (success, failure, running, reached, halted, next running), then one a cursor.
ghost use Rattle.std.specs.Prelude.{◌≡◌, ℕ, ◌+◌, ◌*◌, ◌≤◌, ◌<◌, length, get_or};
ghost use Rattle.wire.specs.Storage.{leaves_from};
ghost use Rattle.lists.specs.Fill.{fill_at};
ghost use Rattle.walk.specs.Walk.{is_running, edge};
ghost use Rattle.tick_lane.specs.Answers.{is_set, bit_of, status_of, status_at, halt_at, flag_at, edge_at, cursor_at};

use wire::Nums;

// Whether a node with this flag is running. A flag is read through this alone.
pub fn is_running(flag: u8) -> bool
    ensures { result ≡ is_running flag }
{
    0 < flag
}

// The edge of a leaf that was running, or not, and is now, or not.
fn edge(was: bool, is: bool) -> u8
    ensures { result ≡ edge was is }
{
    match (was, is) {
        (false, true) => 1,
        (true, false) => 2,
        _ => 0,
    }
}

// Whether a bit is set: tick.rs's `set`.
fn is_set(x: f32) -> bool
    ensures { result ≡ is_set x }
{
    x != 0.0
}

fn bit_of(x: f32) -> u8
    ensures { result ≡ bit_of x }
{
    if is_set(x) { 1 } else { 0 }
}

fn status_of(reached: f32, success: f32, failure: f32) -> u8
    ensures { result ≡ status_of reached success failure }
{
    if !is_set(reached) {
        return 3;
    }
    if is_set(success) {
        return 0;
    }
    if is_set(failure) {
        return 1;
    }
    2
}

#[tactic(auto, unfolding(lists::specs::Fill::fill_at, crate::specs::Answers::status_at))]
pub fn write_statuses(statuses: &mut [u8], outs: &[f32], nodes: usize)
    requires { (nodes ≤ length statuses.old) × (6 * nodes ≤ length outs.now) }
    ensures { statuses.new ≡ fill_at 0 (status_at outs.now) statuses.old nodes }
{
    for i in 0..nodes {
        let at = 6 * i;
        statuses[i] = status_of(outs[at + 3], outs[at], outs[at + 1]);
    }
}

#[tactic(auto, unfolding(lists::specs::Fill::fill_at, crate::specs::Answers::halt_at))]
pub fn write_halts(halts: &mut [u8], outs: &[f32], nodes: usize)
    requires { (nodes ≤ length halts.old) × (6 * nodes ≤ length outs.now) }
    ensures { halts.new ≡ fill_at 0 (halt_at outs.now) halts.old nodes }
{
    for i in 0..nodes {
        halts[i] = bit_of(outs[6 * i + 4]);
    }
}

#[tactic(auto, unfolding(lists::specs::Fill::fill_at, crate::specs::Answers::flag_at))]
pub fn write_flags(flags: &mut [u8], outs: &[f32], nodes: usize)
    requires { (nodes ≤ length flags.old) × (6 * nodes ≤ length outs.now) }
    ensures { flags.new ≡ fill_at 0 (flag_at outs.now) flags.old nodes }
{
    for i in 0..nodes {
        flags[i] = bit_of(outs[6 * i + 5]);
    }
}

// The edge of each leaf, whose node the leaf list gives. The flags are still the old ones.
#[tactic(auto, unfolding(lists::specs::Fill::fill_at, crate::specs::Answers::edge_at, crate::specs::Answers::flag_at))]
pub fn write_edges(edges: &mut [u8], nums: &[u32], flags: &[u8], outs: &[f32], leaves: usize)
    requires leaves_in_bounds { (leaves ≤ length edges.old) × (leaves_from + leaves ≤ length nums.now) × (6 * length flags.now ≤ length outs.now) }
    requires by_index { (s : ℕ) → s < leaves → get_or nums.now (leaves_from + s) 0 < length flags.now }
    ensures { edges.new ≡ fill_at 0 (edge_at nums.now flags.now outs.now) edges.old leaves }
{
    for i in 0..leaves {
        let node = nums[Nums::LEAVES + i] as usize;
        let next = bit_of(outs[6 * node + 5]);
        edges[i] = edge(is_running(flags[node]), is_running(next));
    }
}

#[tactic(auto, unfolding(lists::specs::Fill::fill_at, crate::specs::Answers::cursor_at))]
pub fn write_cursors(cursors: &mut [u32], outs: &[f32], nodes: usize, cells: usize)
    requires { (cells ≤ length cursors.old) × (6 * nodes + cells ≤ length outs.now) }
    ensures { cursors.new ≡ fill_at 0 (cursor_at outs.now nodes) cursors.old cells }
{
    for i in 0..cells {
        cursors[i] = exact::count(outs[6 * nodes + i]);
    }
}
