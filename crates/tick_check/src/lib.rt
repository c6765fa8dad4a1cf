// The check for 17: whether lent storage, which may hold anything, is a circuit.
#![tactic(auto)]

ghost use Rattle.std.specs.Prelude.{◌≡◌, ◌+◌, ◌-◌, ◌*◌, ◌≤◌, ◌<◌, length};
ghost use Rattle.wire.specs.Storage.{ops_from, output_count};
ghost use Rattle.tick_check.specs.Check.{stored_in, pairs, rises_below, each_once, circuit_ok};
ghost use Rattle.tick_check.specs.Parts.{Sized, sizes_ok, coefs_ok, biases_ok, floats_ok, range_ok, op_ranges, ops_range, outs_range, lists_ok, contents_ok};

use wire::{Biases, Circuit, Counts, Nums, Op, Pools};

// Whether each entry but the last is below the one after it. No way leads out of the loop, so that it is done many at a time.
#[tactic(auto, unfolding(crate::specs::Check::pairs, lists::specs::All::all))]
fn pairs_rise(list: &[u32]) -> bool
    requires { 0 < length list.now }
    ensures { result ≡ pairs list.now 0 (length list.now - 1) }
{
    let mut ok = true;
    for i in 1..list.len() {
        ok &= list[i - 1] < list[i];
    }
    ok
}

// Whether entries rise strictly, below a limit. Since they rise, the last alone is held against it; and most forms have one term or none.
#[tactic(auto, using(crate::proofs::Rising::rises_by_last, crate::proofs::Rising::rises_empty))]
fn rises_below(list: &[u32], limit: usize) -> bool
    ensures { result ≡ rises_below list.now 0 (length list.now) limit }
{
    match list.last() {
        Some(last) => (*last as usize) < limit && pairs_rise(list),
        None => true,
    }
}

// Whether the range at an index of nums is inside the terms in use, and its wires rise below a limit.
#[tactic(auto, using(crate::proofs::Part::parts), unfolding(crate::specs::Parts::range_ok))]
fn range_ok(circuit: &Circuit, at: usize, limit: usize) -> bool
    requires { (at + 1 < length circuit.now.nums.now) × (circuit.now.counts.terms ≤ length circuit.now.pools.wires.now) }
    ensures { result ≡ range_ok circuit.now.pools.wires.now circuit.now.counts.terms limit circuit.now.nums.now at }
{
    let first = circuit.nums[at] as usize;
    let end = first + circuit.nums[at + 1] as usize;
    end <= circuit.counts.terms && rises_below(&circuit.pools.wires[first..end], limit)
}

// Whether op i is of one of the two kinds, and reads only what stands before it.
#[tactic(auto, unfolding(crate::specs::Parts::op_ranges))]
fn op_ok(circuit: &Circuit, i: usize) -> bool
    requires { Sized circuit.now × (i < circuit.now.counts.ops) }
    ensures { result ≡ op_ranges circuit.now.pools.wires.now circuit.now.counts.terms (circuit.now.counts.cells + i) circuit.now.nums.now (ops_from + 5 * i) }
{
    let at = Nums::OPS + Nums::PER_OP * i;
    let own = circuit.counts.cells + i;
    let kind = circuit.nums[at];
    (kind == Op::AFFINE || kind == Op::REGLU)
        && range_ok(circuit, at + 1, own)
        && range_ok(circuit, at + 3, own)
}

// The kinds and ranges of all ops, up to the first that is not one.
#[tactic(auto, unfolding(crate::specs::Parts::ops_range, lists::specs::All::all))]
fn ops_ok(circuit: &Circuit) -> bool
    requires { Sized circuit.now }
    ensures { result ≡ ops_range circuit.now.counts circuit.now.nums.now circuit.now.pools.wires.now }
{
    for i in 0..circuit.counts.ops {
        if !op_ok(circuit, i) {
            return false;
        }
    }
    true
}

// The ranges of all output forms, likewise.
#[tactic(auto, unfolding(crate::specs::Parts::outs_range, lists::specs::All::all))]
fn outs_ok(circuit: &Circuit) -> bool
    requires { Sized circuit.now }
    ensures { result ≡ outs_range circuit.now.counts circuit.now.nums.now circuit.now.pools.wires.now }
{
    let table = circuit.counts.cells + circuit.counts.ops;
    for k in 0..outputs(circuit.counts) {
        if !range_ok(circuit, Nums::OUTPUTS + Nums::PER_FORM * k, table) {
            return false;
        }
    }
    true
}

// Whether every coefficient may be one, in one pass with no way out of it.
#[tactic(auto, unfolding(crate::specs::Parts::coefs_ok, lists::specs::All::all))]
fn coefs_ok(coefs: &[f32]) -> bool
    ensures { result ≡ coefs_ok coefs.now (length coefs.now) }
{
    let mut ok = true;
    for x in coefs {
        ok &= exact::is_coefficient(*x);
    }
    ok
}

// Every bias, likewise. What a coefficient may be and what a bias may be are two questions, and each has its own pass.
#[tactic(auto, unfolding(crate::specs::Parts::biases_ok, lists::specs::All::all))]
fn biases_ok(biases: &[f32]) -> bool
    ensures { result ≡ biases_ok biases.now 0 (length biases.now) }
{
    let mut ok = true;
    for x in biases {
        ok &= exact::is_small(*x);
    }
    ok
}

// All floats in use: coefficients, the outputs' biases, the ops'.
#[tactic(auto, using(crate::proofs::Part::parts), unfolding(crate::specs::Parts::floats_ok))]
fn floats_ok(circuit: &Circuit) -> bool
    requires { Sized circuit.now }
    ensures { result ≡ floats_ok circuit.now.counts circuit.now.biases.now circuit.now.pools.coefs.now }
{
    coefs_ok(&circuit.pools.coefs[..circuit.counts.terms])
        && biases_ok(&circuit.biases[..outputs(circuit.counts)])
        && biases_ok(
            &circuit.biases[Biases::OPS..Biases::OPS + Biases::PER_OP * circuit.counts.ops],
        )
}

// Whether the entries hold each number below their count once: each is counted, those of 128 and above apart.
#[tactic(auto, using(crate::proofs::Count::counted, crate::proofs::Count::bounded), unfolding(crate::specs::Check::each_once, lists::specs::All::all))]
fn once_ok(list: &[u32]) -> bool
    requires { length list.now ≤ 128 }
    ensures { result ≡ each_once list.now 0 (length list.now) }
{
    let mut seen = [0u8; 129];
    for x in list {
        seen[(*x as usize).min(128)] += 1;
    }
    let mut ok = true;
    for times in &seen[..list.len()] {
        ok &= *times == 1;
    }
    ok
}

#[tactic(auto, using(crate::proofs::Part::parts), unfolding(crate::specs::Parts::lists_ok))]
fn lists_ok(circuit: &Circuit) -> bool
    requires { Sized circuit.now }
    ensures { result ≡ lists_ok circuit.now.counts circuit.now.nums.now }
{
    let counts = circuit.counts;
    rises_below(
        &circuit.nums[Nums::LEAVES..Nums::LEAVES + counts.leaves],
        counts.nodes,
    ) && rises_below(
        &circuit.nums[Nums::CURSORS..Nums::CURSORS + counts.cursors],
        counts.nodes,
    ) && once_ok(&circuit.nums[Nums::REPORT..Nums::REPORT + counts.nodes])
}

fn sizes_ok(counts: Counts) -> bool
    ensures { result ≡ sizes_ok counts }
{
    0 < counts.nodes
        && counts.nodes <= 128
        && counts.cursors <= counts.nodes
        && counts.leaves <= counts.nodes
        && counts.cells == counts.nodes + counts.cursors + 3 * counts.leaves
}

// How many output forms there are: six a node, one a cursor.
fn outputs(counts: Counts) -> usize
    requires { (counts.nodes ≤ 128) × (counts.cursors ≤ 128) }
    ensures { result ≡ output_count counts }
{
    6 * counts.nodes + counts.cursors
}

#[tactic(auto, using(crate::proofs::Passes::passes_are))]
fn contents_ok(circuit: &Circuit) -> bool
    requires { Sized circuit.now }
    ensures { result ≡ contents_ok (stored_in circuit.now) }
{
    floats_ok(circuit) && ops_ok(circuit) && outs_ok(circuit) && lists_ok(circuit)
}

// Whether this is a circuit: where it is not, 17.
#[tactic(auto, using(crate::proofs::Whole::circuit_is, crate::proofs::Whole::sizes_say, wire::proofs::Stored::held))]
pub fn is_circuit(circuit: &Circuit) -> bool
    ensures { result ≡ circuit_ok (stored_in circuit.now) }
{
    let Pools { wires, coefs } = circuit.pools;
    sizes_ok(circuit.counts)
        && wire::storage_holds(
            circuit.counts,
            circuit.nums.len(),
            circuit.biases.len(),
            wires.len(),
            coefs.len(),
        )
        && contents_ok(circuit)
}
