// A tick's and a validation's answers as document 01's numbers: for the listing's lines, and for callers in C.
#![tactic(auto)]

ghost use Rattle.std.specs.Prelude.{◌≡◌};
ghost use Rattle.tick_refusal.specs.Refusal.{plain, broken, of_validated, of_ticked};

use tick_lane::TickError;
use tick_verdict::InvariantError;
use validate::ValidateError;

// Document 01's number, 0 where nothing is refused; of a broken invariant the case, 1 not a bit, 2 not one hot, 3 bad cursor; the place; the offending float.
#[repr(C)]
#[derive(Clone, Copy, Default)]
pub struct Refusal {
    pub number: u32,
    pub broken: u32,
    pub place: usize,
    pub value: f32,
}

// No refusal, or one with no broken invariant in it.
fn plain(number: u32, place: usize) -> Refusal
    ensures { result ≡ plain number place }
{
    Refusal {
        number,
        place,
        ..Refusal::default()
    }
}

fn broken(what: InvariantError) -> Refusal
    ensures { result ≡ broken what }
{
    let (case, place, value) = match what {
        InvariantError::NotABit(node, x) => (1, node.0, x),
        InvariantError::NotOneHot(node, x) => (2, node.0, x),
        InvariantError::BadCursor(cell, x) => (3, cell.0, x),
    };
    Refusal {
        number: 18,
        broken: case,
        place,
        value,
    }
}

pub fn of_validated(v: Result<(), ValidateError>) -> Refusal
    ensures { result ≡ of_validated v }
{
    match v {
        Ok(()) => plain(0, 0),
        Err(ValidateError::BadCircuit) => plain(17, 0),
        Err(ValidateError::ShortRoom) => plain(14, 0),
        Err(ValidateError::Broken(what)) => broken(what),
    }
}

pub fn of_ticked(t: Result<(), TickError>) -> Refusal
    ensures { result ≡ of_ticked t }
{
    match t {
        Ok(()) => plain(0, 0),
        Err(TickError::BadCircuit) => plain(17, 0),
        Err(TickError::LeafCount(given)) => plain(11, given),
        Err(TickError::StateShape(given)) => plain(12, given),
        Err(TickError::CursorCount(given)) => plain(13, given),
        Err(TickError::ShortRoom) => plain(14, 0),
        Err(TickError::BadStatus(slot)) => plain(15, slot),
        Err(TickError::BadFlag(node)) => plain(16, node.0),
        Err(TickError::BadInvariant(what)) => broken(what),
    }
}
