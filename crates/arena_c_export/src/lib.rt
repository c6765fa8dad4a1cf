// An archive for the comparisons: the functions of crate arena_c, under their names, for callers in C.
#![tactic(auto)]

ghost use Rattle.std.specs.Prelude.{true};
ghost use Rattle.arena.specs.Arena.{plus_in, scaled_in, one_minus_in};
ghost use Rattle.arena_c.specs.Flat.{Leaves};

use arena_c::Row;

#[unsafe(no_mangle)]
pub extern "C" fn palthengi_plus(
    wires: &mut [u32],
    coefs: &mut [f32],
    used: usize,
    a: f32,
    afirst: usize,
    alen: usize,
    b: f32,
    bfirst: usize,
    blen: usize,
) -> Row
    ensures { Leaves
        (plus_in wires.old coefs.old (record { used = used; ok = true })
        (record { bias = a; first = afirst; len = alen }) (record { bias = b; first = bfirst; len = blen }))
        wires.new coefs.new result }
{
    arena_c::palthengi_plus(wires, coefs, used, a, afirst, alen, b, bfirst, blen)
}

#[unsafe(no_mangle)]
pub extern "C" fn palthengi_scaled(
    wires: &mut [u32],
    coefs: &mut [f32],
    used: usize,
    a: f32,
    first: usize,
    len: usize,
    factor: f32,
) -> Row
    ensures { Leaves (scaled_in wires.old coefs.old (record { used = used; ok = true }) (record { bias = a; first = first; len = len }) factor)
        wires.new coefs.new result }
{
    arena_c::palthengi_scaled(wires, coefs, used, a, first, len, factor)
}

#[unsafe(no_mangle)]
pub extern "C" fn palthengi_one_minus(
    wires: &mut [u32],
    coefs: &mut [f32],
    used: usize,
    a: f32,
    first: usize,
    len: usize,
) -> Row
    ensures { Leaves (one_minus_in wires.old coefs.old (record { used = used; ok = true }) (record { bias = a; first = first; len = len }))
        wires.new coefs.new result }
{
    arena_c::palthengi_one_minus(wires, coefs, used, a, first, len)
}
