// What stands around building in compile: whether enough is lent, the plan's lists, the refusals for want of slots, and zeroing.
#![tactic(auto)]

mod emit;

ghost use Rattle.std.specs.Prelude.{◌≡◌, ◌≤◌, ◌<◌, length};
ghost use Rattle.wire.specs.Lending.{LentAs};
ghost use Rattle.compile.specs.Compile.{lent};
ghost use Rattle.compile.specs.Compile.{roomy as roomyOf};
ghost use Rattle.compile.specs.Lending.{LentAs as WorkLentAs};
ghost use Rattle.builder_table.specs.Whole.{ops_most};
ghost use Rattle.builder_table.specs.Loans.{memory};
ghost use Rattle.lower_emit.specs.Emit.{all_lens, outputs_many, OpsInside, OutputsInside};
ghost use Rattle.lower_emit.specs.Written.{Holds};
ghost use Rattle.lower_emit.specs.Settle.{outcome_in, Wiped, WorkWiped, listed_in, plan_of, refused_in, settled_in};

use builder_table::Builder;
use compile::WorkRoom;
use plan::Plan;
use tree_record::{Cause, Refusal};
use wire::{Biases, Counts, Nums, Storage};

// Not "work room, or any circuit storage but the op and term slots, shorter than its length in docs/".
#[tactic(auto, unfolding(compile::specs::Compile::roomy))]
pub fn roomy(
    nums: usize,
    biases: usize,
    wires: usize,
    coefs: usize,
    work_nums: usize,
    work_biases: usize,
    work_wires: usize,
    work_coefs: usize,
) -> bool
    ensures { result ≡ roomyOf (lent nums biases wires coefs work_nums work_biases work_wires work_coefs) }
{
    Nums::OPS <= nums
        && Biases::OPS <= biases
        && WorkRoom::NUMS <= work_nums
        && WorkRoom::BIASES <= work_biases
        && WorkRoom::TERMS <= work_wires
        && WorkRoom::TERMS <= work_coefs
}

// ---- zeroing

// A circuit's storage.
pub fn wipe(storage: &mut Storage)
    ensures lent { LentAs storage.old storage.new }
    ensures wiped { Wiped storage.old storage.new }
{
    storage.nums.fill(0);
    storage.biases.fill(0.0);
    storage.wires.fill(0);
    storage.coefs.fill(0.0);
}

// The work room.
pub fn wipe_work(work: &mut WorkRoom)
    ensures lent { WorkLentAs work.old work.new }
    ensures wiped { WorkWiped work.old work.new }
{
    work.nums.fill(0);
    work.biases.fill(0.0);
    work.wires.fill(0);
    work.coefs.fill(0.0);
}

// ---- the plan's lists

// Writes them, and answers how long they are.
#[tactic(auto, using(crate::proofs::Lists::leaves_few, crate::proofs::Lists::cursors_few))]
pub fn write_lists(storage: &mut Storage, kinds: &[u8], counts: &[u16]) -> Plan
    requires { 384 ≤ length storage.old.nums.now }
    ensures lent { LentAs storage.old storage.new }
    ensures listed { storage.new.nums.now ≡ listed_in storage.old.nums.now kinds.now counts.now }
    ensures kept { (storage.new.biases.now ≡ storage.old.biases.now)
        × (storage.new.wires.now ≡ storage.old.wires.now) × (storage.new.coefs.now ≡ storage.old.coefs.now) }
    ensures plan { result ≡ plan_of kinds.now }
    ensures few { (result.cursors ≤ 128) × (result.leaves ≤ 128) }
{
    let leaves = plan::leaf_list(kinds, &mut storage.nums[Nums::LEAVES..Nums::CURSORS]);
    let cursors = plan::cursor_list(kinds, &mut storage.nums[Nums::CURSORS..Nums::REPORT]);
    plan::report_order(counts, &mut storage.nums[Nums::REPORT..Nums::OUTPUTS]);
    Plan {
        nodes: kinds.len(),
        cursors,
        leaves,
    }
}

// ---- the end of compile

// A refusal leaves all lent circuit storage zero.
fn refuse(storage: &mut Storage, cause: Cause) -> Result<Counts, Refusal>
    ensures lent { LentAs storage.old storage.new }
    ensures outcome { outcome_in result storage.new
        ≡ refused_in storage.old.nums.now storage.old.biases.now storage.old.wires.now storage.old.coefs.now cause }
{
    wipe(storage);
    Err(Refusal { cause, place: 0 })
}

// "Then 8, 9, 10": what was built is counted, and refused or written. The lists are in place, and the slots for ops and terms are zero.
#[tactic(auto, unfolding(crate::specs::Settle::settled_in, crate::specs::Settle::written_in))]
pub fn settle(storage: &mut Storage, b: &Builder, plan: Plan) -> Result<Counts, Refusal>
    requires holds { Holds storage.old 0 }
    requires few { (b.now.ops ≤ ops_most) × (plan.nodes ≤ 128) × (plan.cursors ≤ 128) × (plan.leaves ≤ 128) }
    requires ops_inside { OpsInside (memory b.now) b.now.ops }
    requires outputs_inside { OutputsInside (memory b.now) plan.nodes (outputs_many plan.nodes plan.cursors) }
    requires terms_few { all_lens b.now.nums.now b.now.ops plan.nodes plan.cursors < 4294967296 }
    ensures lent { LentAs storage.old storage.new }
    ensures outcome { outcome_in result storage.new
        ≡ settled_in storage.old.nums.now storage.old.biases.now storage.old.wires.now storage.old.coefs.now
        (memory b.now) b.now.ops plan.nodes plan.cursors plan.leaves }
{
    if wire::op_slots(storage.nums.len(), storage.biases.len()) < b.ops {
        return refuse(storage, Cause::NoOpRoom);
    }
    let terms = emit::count_terms(b, plan.nodes, plan.cursors);
    if wire::term_slots(storage.wires.len(), storage.coefs.len()) < terms {
        return refuse(storage, Cause::NoTermRoom);
    }
    emit::emit(storage, b, plan.nodes, plan.cursors);
    Ok(Counts {
        nodes: plan.nodes,
        cursors: plan.cursors,
        leaves: plan.leaves,
        cells: plan.cell_count(),
        ops: b.ops,
        terms,
    })
}
