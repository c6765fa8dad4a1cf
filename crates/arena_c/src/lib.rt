// The arena's operations for callers in C and Rust: a form by its bias and range, the room by the terms in use and the flag.
#![tactic(auto)]

ghost use Rattle.std.specs.Prelude.{◌≡◌, true};
ghost use Rattle.arena.specs.Arena.{plus_in, scaled_in, one_minus_in};
ghost use Rattle.arena_c.specs.Flat.{Leaves};

use arena::Arena;
use arena_room::Room;
use wire::Form;

#[repr(C)]
#[derive(Clone, Copy)]
pub struct Row {
    pub bias: f32,
    pub first: usize,
    pub len: usize,
    pub used: usize,
    pub ok: bool,
}

fn row_of(f: Form, room: Room) -> Row
    ensures { result ≡ record { bias = f.bias; first = f.first; len = f.len; used = room.used; ok = room.ok } }
{
    Row {
        bias: f.bias,
        first: f.first,
        len: f.len,
        used: room.used,
        ok: room.ok,
    }
}

// a + b
pub fn palthengi_plus(
    wires: &mut [u32],
    coefs: &mut [f32],
    used: usize,
    a: f32,
    afirst: usize,
    alen: usize,
    b: f32,
    bfirst: usize,
    blen: usize,
) -> Row
    ensures { Leaves
        (plus_in wires.old coefs.old (record { used = used; ok = true })
        (record { bias = a; first = afirst; len = alen }) (record { bias = b; first = bfirst; len = blen }))
        wires.new coefs.new result }
{
    let left = Form {
        bias: a,
        first: afirst,
        len: alen,
    };
    let right = Form {
        bias: b,
        first: bfirst,
        len: blen,
    };
    let room = Room { used, ok: true };
    let mut arena = Arena { wires, coefs, room };
    let form = arena.plus(left, right);
    row_of(form, arena.room)
}

// factor * a
pub fn palthengi_scaled(
    wires: &mut [u32],
    coefs: &mut [f32],
    used: usize,
    a: f32,
    first: usize,
    len: usize,
    factor: f32,
) -> Row
    ensures { Leaves (scaled_in wires.old coefs.old (record { used = used; ok = true }) (record { bias = a; first = first; len = len }) factor)
        wires.new coefs.new result }
{
    let form = Form {
        bias: a,
        first,
        len,
    };
    let room = Room { used, ok: true };
    let mut arena = Arena { wires, coefs, room };
    let form = arena.scaled(form, factor);
    row_of(form, arena.room)
}

// 1 - a
pub fn palthengi_one_minus(
    wires: &mut [u32],
    coefs: &mut [f32],
    used: usize,
    a: f32,
    first: usize,
    len: usize,
) -> Row
    ensures { Leaves (one_minus_in wires.old coefs.old (record { used = used; ok = true }) (record { bias = a; first = first; len = len }))
        wires.new coefs.new result }
{
    let form = Form {
        bias: a,
        first,
        len,
    };
    let room = Room { used, ok: true };
    let mut arena = Arena { wires, coefs, room };
    let form = arena.one_minus(form);
    row_of(form, arena.room)
}
