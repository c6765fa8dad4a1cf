// Lowering: the tree of some bytes, read, built and written, once the circuit's storage is zero and enough is lent.
#![tactic(auto)]

ghost use Rattle.std.specs.Prelude.{◌≡◌, true, ◌≤◌, length};
ghost use Rattle.wire.specs.Lending.{LentAs};
ghost use Rattle.tree.specs.Tree.{accepted, tree_of};
ghost use Rattle.compile.specs.Compile.{lent, roomy, compile_tree};
ghost use Rattle.compile.specs.Lending.{lent_in};
ghost use Rattle.compile.specs.Lending.{LentAs as WorkLentAs};
ghost use Rattle.builder_table.specs.Whole.{Whole};
ghost use Rattle.builder_table.specs.Work.{mem};
ghost use Rattle.lower_emit.specs.Written.{Holds};
ghost use Rattle.lower_emit.specs.Settle.{outcome_in};
ghost use Rattle.lower_emit_laws.specs.Built.{Builds};
ghost use Rattle.lower_tree.specs.Steps.{Zeroed};

use arena::Arena;
use arena_room::Room;
use builder_table::Builder;
use compile::WorkRoom;
use index::NodeIndex;
use tree_record::Refusal;
use wire::{Counts, Storage};

// The nodes of an accepted tree, of which building gives the circuit. The work room comes as its four slices: tried as the struct, and the proof did not
// close, since of what an arena in a builder held nothing is known once the builder is gone, not even the lengths.
fn lower_nodes<'a>(
    kinds: &[u8],
    counts: &[u16],
    storage: &mut Storage,
    nums: &'a mut [usize],
    biases: &'a mut [f32],
    wires: &'a mut [u32],
    coefs: &'a mut [f32],
) -> Result<Counts, Refusal>
    requires nodes { (length kinds.now ≤ 128) × (length counts.now ≡ length kinds.now) }
    requires whole { Whole nums.old biases.old }
    requires holds { Holds storage.old 0 }
    requires zeroed { Zeroed storage.old }
    requires builds { Builds (mem wires.old coefs.old nums.old biases.old) kinds.now counts.now }
    ensures lent { LentAs storage.old storage.new }
    ensures outcome { outcome_in result storage.new
        ≡ compile_tree (lent (length storage.old.nums.now) (length storage.old.biases.now) (length storage.old.wires.now) (length storage.old.coefs.now)
        (length nums.old) (length biases.old) (length wires.old) (length coefs.old)) (accepted kinds.now counts.now) }
{
    let plan = lower_emit::write_lists(storage, kinds, counts);
    let room = Room { used: 0, ok: true };
    let mut b = Builder {
        arena: Arena { wires, coefs, room },
        nums,
        biases,
        ops: 0,
        cells: 0,
    };
    lower_build::build(&mut b, kinds, counts, plan.nodes, plan.cursors, plan.leaves);
    lower_emit::settle(storage, &b, plan)
}

// The tree of these bytes. The circuit's storage is zero, and enough is lent.
#[tactic(auto, unfolding(compile::specs::Compile::roomy))]
pub fn lower_tree(
    tree: &[u8],
    storage: &mut Storage,
    work: &mut WorkRoom,
) -> Result<Counts, Refusal>
    requires enough { roomy (lent_in storage.old work.old) ≡ true }
    requires zeroed { Zeroed storage.old }
    ensures lent { LentAs storage.old storage.new × WorkLentAs work.old work.new }
    ensures outcome { outcome_in result storage.new ≡ compile_tree (lent_in storage.old work.old) (tree_of tree.now) }
{
    let mut kinds = [0u8; NodeIndex::LIMIT];
    let mut counts = [0u16; NodeIndex::LIMIT];
    let nodes = tree::flatten(tree, &mut kinds, &mut counts)?;
    lower_nodes(
        &kinds[..nodes],
        &counts[..nodes],
        storage,
        work.nums,
        work.biases,
        work.wires,
        work.coefs,
    )
}
