// The flattening: a tree's records, read in pre-order, as the kinds and child counts of its nodes.
ghost use Rattle.std.specs.Prelude.{◌≡◌, ◌≤◌, length, replicate};
ghost use Rattle.tree_record.specs.Record.{record_at};
ghost use Rattle.tree.specs.Tree.{tree_of, flat_of, answer_of, kinds_in, counts_in, Written, limited};

use index::NodeIndex;
use tree_record::{Cause, Node, Refusal, read_record};

// A node's level, the root's being 1.
#[derive(Clone, Copy)]
pub struct Level(pub usize);

impl Level {
    // "At most 16 levels": the last level that a node may have.
    pub const LIMIT: usize = 16;
}

// Writes the kinds and child counts of a tree's nodes in pre-order, and answers how many nodes there are. Unused slots are left zero, and all of them
// where the tree is refused.
pub fn flatten(bytes: &[u8], kinds: &mut [u8], counts: &mut [u16]) -> Result<usize, Refusal>
    ensures value { result ≡ answer_of (flat_of (length kinds.old) (length counts.old) bytes.now) }
    ensures kinds_after { kinds.new ≡ kinds_in (length kinds.old) (flat_of (length kinds.old) (length counts.old) bytes.now) }
    ensures counts_after { counts.new ≡ counts_in (length counts.old) (flat_of (length kinds.old) (length counts.old) bytes.now) }
{
    kinds.fill(0);
    counts.fill(0);
    if kinds.len() < NodeIndex::LIMIT || counts.len() < NodeIndex::LIMIT {
        return Err(Refusal {
            cause: Cause::ShortRoom,
            place: 0,
        });
    }
    let nodes = read_tree(bytes, kinds, counts);
    if nodes.is_err() {
        kinds.fill(0);
        counts.fill(0);
    }
    nodes
}

// Reads the records in pre-order. The slots are zero when it starts; where it refuses, what it wrote is left in them.
fn read_tree(bytes: &[u8], kinds: &mut [u8], counts: &mut [u16]) -> Result<usize, Refusal>
    requires in_bounds { (128 ≤ length kinds.old) × (128 ≤ length counts.old) }
    requires kinds_value { kinds.old ≡ replicate (length kinds.old) 0 }
    requires counts_value { counts.old ≡ replicate (length counts.old) 0 }
    ensures value { result ≡ answer_of (tree_of bytes.now) }
    ensures written { Written (tree_of bytes.now) kinds.new counts.new }
{
    // How many children of each open ancestor are still to be read, the root counting as the one child of nothing. A node's level is the
    // number of these, and level 17 is read before it is refused.
    // A `while`, since how many turns it takes is what the bytes say.
    let mut pend = [0u16; Level::LIMIT + 1];
    pend[0] = 1;
    let mut depth: usize = 1;
    let mut at: usize = 0;
    let mut node: usize = 0;
    while depth > 0 {
        let i = depth - 1;
        let top = pend[i];
        if top == 0 {
            depth = i;
        } else {
            let found = limited(bytes, at, node, depth).map_err(|cause| Refusal {
                cause,
                place: node,
            })?;
            kinds[node] = found.kind;
            counts[node] = found.count;
            pend[i] = top - 1;
            pend[depth] = found.count;
            depth += 1;
            node += 1;
            at = found.next;
        }
    }
    if at < bytes.len() {
        return Err(Refusal {
            cause: Cause::Trailing,
            place: node,
        });
    }
    Ok(node)
}

// The record of a node, at a level: the limits come after all that the record itself is refused for.
fn limited(bytes: &[u8], at: usize, node: usize, level: usize) -> Result<Node, Cause>
    ensures { result ≡ limited (record_at bytes.now at) node level }
{
    let found = read_record(bytes, at)?;
    if level > Level::LIMIT {
        return Err(Cause::TooDeep);
    }
    if node >= NodeIndex::LIMIT {
        return Err(Cause::TooManyNodes);
    }
    Ok(found)
}
