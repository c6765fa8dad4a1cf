// Compile, the check for 17, validation and the tick for callers in C: numbers and slices in, a number or a struct out. include/palthengi.h declares them.
#![tactic(auto)]

ghost use Rattle.std.specs.Prelude.{◌≡◌, length};
ghost use Rattle.tick_check.specs.Check.{stored, stored_in, circuit_ok};
ghost use Rattle.validate.specs.Validate.{validate_of};
ghost use Rattle.tick_lane.specs.Lane.{lent};
ghost use Rattle.tick.specs.Tick.{tick_of};
ghost use Rattle.tick_refusal.specs.Refusal.{check_number, of_validated, told, tell};
ghost use Rattle.compile.specs.Compile as compile;
ghost use Rattle.lower_emit.specs.Settle.{zeros, zeros32};
ghost use Rattle.palthengi.specs.Compilation.{of_compiled, made, tell_made};

use compile::WorkRoom;
use tick_lane::Lane;
use tick_refusal::{Refusal, of_ticked, of_validated};
use wire::{Circuit, Counts, Pools, Storage};

pub fn palthengi_check(
    counts: Counts,
    nums: &[u32],
    biases: &[f32],
    wires: &[u32],
    coefs: &[f32],
) -> u32
    ensures { result ≡ check_number (circuit_ok (stored counts nums.now biases.now wires.now coefs.now)) }
{
    let circuit = circuit_of(counts, nums, biases, wires, coefs);
    if tick_check::is_circuit(&circuit) {
        0
    } else {
        17
    }
}

pub fn palthengi_validate(
    counts: Counts,
    nums: &[u32],
    biases: &[f32],
    wires: &[u32],
    coefs: &[f32],
    table: &[f32],
) -> Refusal
    ensures { result ≡ of_validated (validate_of (stored counts nums.now biases.now wires.now coefs.now) table.now) }
{
    let circuit = circuit_of(counts, nums, biases, wires, coefs);
    of_validated(validate::validate(&circuit, table))
}

pub fn palthengi_tick(
    counts: Counts,
    nums: &[u32],
    biases: &[f32],
    wires: &[u32],
    coefs: &[f32],
    row: &[u8],
    flags: &mut [u8],
    cursors: &mut [u32],
    values: &mut [f32],
    statuses: &mut [u8],
    halts: &mut [u8],
    edges: &mut [u8],
) -> Refusal
    ensures { told result (lent flags.new cursors.new values.new statuses.new halts.new edges.new)
        ≡ tell (tick_of (stored counts nums.now biases.now wires.now coefs.now) row.now
        (lent flags.old cursors.old values.old statuses.old halts.old edges.old)) }
{
    let circuit = circuit_of(counts, nums, biases, wires, coefs);
    let mut lane = Lane {
        flags,
        cursors,
        values,
        statuses,
        halts,
        edges,
    };
    of_ticked(tick::tick(&circuit, row, &mut lane))
}

// The circuit that is lent in four slices.
fn circuit_of<'a>(
    counts: Counts,
    nums: &'a [u32],
    biases: &'a [f32],
    wires: &'a [u32],
    coefs: &'a [f32],
) -> Circuit<'a>
    ensures { stored_in result ≡ stored counts nums.now biases.now wires.now coefs.now }
{
    let pools = Pools { wires, coefs };
    Circuit {
        counts,
        nums,
        biases,
        pools,
    }
}

// ---- compile

// Document 01's number, 0 where the tree is compiled; the kind that 4 carries; the place; the counts of the circuit, all 0 where it is refused.
#[repr(C)]
#[derive(Clone, Copy, Default)]
pub struct Compilation {
    pub number: u32,
    pub kind: u32,
    pub place: usize,
    pub counts: Counts,
}

pub fn palthengi_compile(
    tree: &[u8],
    nums: &mut [u32],
    biases: &mut [f32],
    wires: &mut [u32],
    coefs: &mut [f32],
    worknums: &mut [usize],
    workbiases: &mut [f32],
    workwires: &mut [u32],
    workcoefs: &mut [f32],
) -> Compilation
    ensures outcome { made result nums.new biases.new wires.new coefs.new
        ≡ tell_made (compile.compile_of (compile.lent (length nums.old) (length biases.old) (length wires.old) (length coefs.old) (length worknums.old) (length workbiases.old) (length workwires.old) (length workcoefs.old)) tree.now) }
    ensures work_wiped { (worknums.new ≡ zeros worknums.old) × (workbiases.new ≡ zeros32 workbiases.old)
        × (workwires.new ≡ zeros workwires.old) × (workcoefs.new ≡ zeros32 workcoefs.old) }
{
    let mut storage = Storage {
        nums,
        biases,
        wires,
        coefs,
    };
    let mut work = WorkRoom {
        nums: worknums,
        biases: workbiases,
        wires: workwires,
        coefs: workcoefs,
    };
    of_compiled(lower::compile(tree, &mut storage, &mut work))
}

fn of_compiled(answer: Result<Counts, tree_record::Refusal>) -> Compilation
    ensures { result ≡ of_compiled answer }
{
    match answer {
        Ok(counts) => Compilation {
            counts,
            ..Compilation::default()
        },
        Err(refusal) => Compilation {
            number: refusal.cause.number() as u32,
            kind: refusal.cause.kind() as u32,
            place: refusal.place,
            ..Compilation::default()
        },
    }
}
