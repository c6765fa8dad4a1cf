// compile: from a tree's bytes to a circuit in lent storage.
#![tactic(auto)]

ghost use Rattle.std.specs.Prelude.{◌≡◌};
ghost use Rattle.wire.specs.Lending.{LentAs};
ghost use Rattle.compile.specs.Compile.{compile_of};
ghost use Rattle.compile.specs.Lending.{lent_in};
ghost use Rattle.compile.specs.Lending.{LentAs as WorkLentAs};
ghost use Rattle.lower_emit.specs.Settle.{outcome_in, WorkWiped};
ghost use Rattle.lower_tree.specs.Steps.{Zeroed};

use compile::WorkRoom;
use tree_record::{Cause, Refusal};
use wire::{Counts, Storage};

// 14 "before any record is read", or the tree lowered. The circuit's storage is zero.
#[tactic(auto, unfolding(compile::specs::Compile::compile_of))]
fn lowered(tree: &[u8], storage: &mut Storage, work: &mut WorkRoom) -> Result<Counts, Refusal>
    requires { Zeroed storage.old }
    ensures lent { LentAs storage.old storage.new × WorkLentAs work.old work.new }
    ensures outcome { outcome_in result storage.new ≡ compile_of (lent_in storage.old work.old) tree.now }
{
    if !lower_emit::roomy(
        storage.nums.len(),
        storage.biases.len(),
        storage.wires.len(),
        storage.coefs.len(),
        work.nums.len(),
        work.biases.len(),
        work.wires.len(),
        work.coefs.len(),
    ) {
        return Err(Refusal {
            cause: Cause::ShortRoom,
            place: 0,
        });
    }
    lower_tree::lower_tree(tree, storage, work)
}

// Compiles a tree. Circuit storage ends as the circuit, or zero where the tree is refused; the work room ends zero.
pub fn compile(tree: &[u8], storage: &mut Storage, work: &mut WorkRoom) -> Result<Counts, Refusal>
    ensures lent { LentAs storage.old storage.new × WorkLentAs work.old work.new }
    ensures outcome { outcome_in result storage.new ≡ compile_of (lent_in storage.old work.old) tree.now }
    ensures work_wiped { WorkWiped work.old work.new }
{
    lower_emit::wipe(storage);
    let answer = lowered(tree, storage, work);
    lower_emit::wipe_work(work);
    answer
}
