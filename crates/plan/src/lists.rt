// The lists of a plan. Each is written from the front of a lent slice, as far as there is room, and the answer is the list's length. Past
// the node limit nothing is read.
ghost use Rattle.std.specs.Prelude.{◌≡◌, length, set, take};
ghost use Rattle.std.proofs.lemmas.List.Edits.{sets};
ghost use Rattle.plan.specs.Plan.{leaves_of, cursors_of, report_of, places_from, nodes_in, either_kind};

use index::NodeIndex;
use tree_kinds::kind;

// The node of each leaf slot.
#[tactic(auto, using(crate::proofs::Places::same_leaves), unfolding(crate::specs::Plan::leaves_of))]
pub fn leaf_list(kinds: &[u8], leaves: &mut [u32]) -> usize
    ensures value { result ≡ length (leaves_of kinds.now) }
    ensures leaves_after { leaves.new ≡ sets leaves.old 0 (leaves_of kinds.now) }
{
    places(kinds, kind::LEAF, kind::LEAF, leaves)
}

// The node of each cursor cell.
#[tactic(auto, unfolding(crate::specs::Plan::cursors_of))]
pub fn cursor_list(kinds: &[u8], cursors: &mut [u32]) -> usize
    ensures value { result ≡ length (cursors_of kinds.now) }
    ensures cursors_after { cursors.new ≡ sets cursors.old 0 (cursors_of kinds.now) }
{
    places(kinds, kind::SEQUENCE, kind::FALLBACK, cursors)
}

// The nodes of two kinds, in pre-order.
fn places(kinds: &[u8], one: u8, other: u8, list: &mut [u32]) -> usize
    ensures value { result ≡ length (places_from (either_kind one other) 0 (nodes_in kinds.now)) }
    ensures list_after { list.new ≡ sets list.old 0 (places_from (either_kind one other) 0 (nodes_in kinds.now)) }
{
    let mut found = 0;
    for (node, &kind) in nodes_in(kinds).iter().enumerate() {
        if kind == one || kind == other {
            put(list, found, node as u32);
            found += 1;
        }
    }
    found
}

// A node that is open, and how many of its children are still to come.
#[derive(Clone, Copy)]
struct Open {
    node: u32,
    due: u16,
}

// The nodes in report order.
pub fn report_order(counts: &[u16], report: &mut [u32]) -> usize
    ensures value { result ≡ length (report_of counts.now) }
    ensures report_after { report.new ≡ sets report.old 0 (report_of counts.now) }
{
    let nodes = nodes_in(counts);
    // The open nodes, outermost first, from slot 1 on. Slot 0 stands for what the roots hang from, and has more children than there are nodes.
    let mut stack = [Open { node: 0, due: 0 }; NodeIndex::LIMIT + 1];
    stack[0].due = NodeIndex::LIMIT as u16 + 1;
    let mut depth = 0;
    let mut node = 0;
    for done in 0..nodes.len() {
        // A `while`, since it goes down as far as the first node with nothing left below it.
        while stack[depth].due > 0 && node < nodes.len() {
            stack[depth].due -= 1;
            depth += 1;
            stack[depth] = Open {
                node: node as u32,
                due: nodes[node],
            };
            node += 1;
        }
        put(report, done, stack[depth].node);
        depth -= 1;
    }
    nodes.len()
}

// The entries of the nodes: no more than the limit.
#[tactic(auto, using(std::proofs::lemmas::List::take_min))]
fn nodes_in<T>(entries: &[T]) -> &[T]
    ensures { result.now ≡ take 128 entries.now }
{
    &entries[..NodeIndex::LIMIT.min(entries.len())]
}

// Writes an entry of a list, where the list has one.
#[tactic(auto, using(std::proofs::lemmas::List::set_past))]
fn put(list: &mut [u32], at: usize, value: u32)
    ensures { list.new ≡ set list.old at value }
{
    if at < list.len() {
        list[at] = value;
    }
}
