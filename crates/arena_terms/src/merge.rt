// The terms of a sum and of a multiple of forms, written to two lent pools right past those in use. An inner crate: the arena above it asks whether
// there is room. The pools are two slices and no struct, as an arena hands in two fields of its own.
ghost use Rattle.std.specs.Prelude.{◌+◌, ◌≤◌, length};
ghost use Rattle.wire.specs.Terms.{terms_of};
ghost use Rattle.arena_terms.specs.Sums.{kept, merge, scaled_terms};
ghost use Rattle.arena_terms.specs.Steps.{Put};

use crate::terms::{next_term, push_term, term_at};
use wire::{Form, Term};

// Writes the terms of a sum of two forms at `used`, past all that is in use: sorted by wire, duplicates summed, zero coefficients dropped.
#[tactic(auto, using(crate::proofs::Turns::merged_end))]
pub fn merge_terms(
    wires: &mut [u32],
    coefs: &mut [f32],
    used: usize,
    mut a: Form,
    mut b: Form,
) -> usize
    requires in_use { (a.first + a.len ≤ used) × (b.first + b.len ≤ used) }
    requires room { (used + a.len + b.len ≤ length wires.old) × (used + a.len + b.len ≤ length coefs.old) }
    ensures { Put wires.old coefs.old used
        (kept (merge (terms_of wires.old coefs.old a) (terms_of wires.old coefs.old b)))
        wires.new coefs.new result }
{
    let mut at = used;
    // What is left to read of a form is itself a form. A `while`, since a turn takes a term off one of them, or off both.
    while a.len + b.len > 0 {
        let next = next_term(wires, coefs, a, b);
        at = push_term(wires, coefs, at, next.term);
        (a, b) = (next.a, next.b);
    }
    at
}

// Writes the terms of a form times a factor there, with no -0.0 and no zero coefficient.
#[tactic(auto, using(crate::proofs::Turns::scaled_end))]
pub fn scale_terms(wires: &mut [u32], coefs: &mut [f32], used: usize, a: Form, factor: f32) -> usize
    requires { (a.first + a.len ≤ used) × (used + a.len ≤ length wires.old) × (used + a.len ≤ length coefs.old) }
    ensures { Put wires.old coefs.old used (scaled_terms factor (terms_of wires.old coefs.old a)) wires.new coefs.new result }
{
    let mut at = used;
    for i in a.first..a.first + a.len {
        let term = term_at(wires, coefs, i);
        at = push_term(
            wires,
            coefs,
            at,
            Term {
                coef: term.coef * factor + 0.0,
                ..term
            },
        );
    }
    at
}
