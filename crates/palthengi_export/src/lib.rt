// The archive for callers in C: compile, the check for 17, validation and the tick of crate palthengi, under their names. include/palthengi.h declares them.
#![tactic(auto)]

ghost use Rattle.std.specs.Prelude.{◌≡◌, length};
ghost use Rattle.tick_check.specs.Check.{stored, circuit_ok};
ghost use Rattle.validate.specs.Validate.{validate_of};
ghost use Rattle.tick_lane.specs.Lane.{lent};
ghost use Rattle.tick.specs.Tick.{tick_of};
ghost use Rattle.tick_refusal.specs.Refusal.{check_number, of_validated, told, tell};
ghost use Rattle.compile.specs.Compile as compile;
ghost use Rattle.lower_emit.specs.Settle.{zeros, zeros32};
ghost use Rattle.palthengi.specs.Compilation.{made, tell_made};

use palthengi::Compilation;
use tick_refusal::Refusal;
use wire::Counts;

#[unsafe(no_mangle)]
pub extern "C" fn palthengi_check(
    counts: Counts,
    nums: &[u32],
    biases: &[f32],
    wires: &[u32],
    coefs: &[f32],
) -> u32
    ensures { result ≡ check_number (circuit_ok (stored counts nums.now biases.now wires.now coefs.now)) }
{
    palthengi::palthengi_check(counts, nums, biases, wires, coefs)
}

#[unsafe(no_mangle)]
pub extern "C" fn palthengi_validate(
    counts: Counts,
    nums: &[u32],
    biases: &[f32],
    wires: &[u32],
    coefs: &[f32],
    table: &[f32],
) -> Refusal
    ensures { result ≡ of_validated (validate_of (stored counts nums.now biases.now wires.now coefs.now) table.now) }
{
    palthengi::palthengi_validate(counts, nums, biases, wires, coefs, table)
}

#[unsafe(no_mangle)]
pub extern "C" fn palthengi_tick(
    counts: Counts,
    nums: &[u32],
    biases: &[f32],
    wires: &[u32],
    coefs: &[f32],
    row: &[u8],
    flags: &mut [u8],
    cursors: &mut [u32],
    values: &mut [f32],
    statuses: &mut [u8],
    halts: &mut [u8],
    edges: &mut [u8],
) -> Refusal
    ensures { told result (lent flags.new cursors.new values.new statuses.new halts.new edges.new)
        ≡ tell (tick_of (stored counts nums.now biases.now wires.now coefs.now) row.now
        (lent flags.old cursors.old values.old statuses.old halts.old edges.old)) }
{
    palthengi::palthengi_tick(
        counts, nums, biases, wires, coefs, row, flags, cursors, values, statuses, halts, edges,
    )
}

#[unsafe(no_mangle)]
pub extern "C" fn palthengi_compile(
    tree: &[u8],
    nums: &mut [u32],
    biases: &mut [f32],
    wires: &mut [u32],
    coefs: &mut [f32],
    worknums: &mut [usize],
    workbiases: &mut [f32],
    workwires: &mut [u32],
    workcoefs: &mut [f32],
) -> Compilation
    ensures outcome { made result nums.new biases.new wires.new coefs.new
        ≡ tell_made (compile.compile_of (compile.lent (length nums.old) (length biases.old) (length wires.old) (length coefs.old) (length worknums.old) (length workbiases.old) (length workwires.old) (length workcoefs.old)) tree.now) }
    ensures work_wiped { (worknums.new ≡ zeros worknums.old) × (workbiases.new ≡ zeros32 workbiases.old)
        × (workwires.new ≡ zeros workwires.old) × (workcoefs.new ≡ zeros32 workcoefs.old) }
{
    palthengi::palthengi_compile(
        tree, nums, biases, wires, coefs, worknums, workbiases, workwires, workcoefs,
    )
}
