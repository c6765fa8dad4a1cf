// Terms of sums, one at a time, in two lent pools: the next term of a merge of two forms, and a term written. An inner crate.
ghost use Rattle.std.specs.Prelude.{◌≡◌, [], ◌∷◌, ◌+◌, ◌-◌, ◌^◌, ◌≤◌, ◌<◌, length};
ghost use Rattle.wire.specs.Terms.{term_at as termOf};
ghost use Rattle.arena_terms.specs.Sums.{kept};
ghost use Rattle.arena_terms.specs.Steps.{Put, Stepped};

use index::Wire;
use wire::{Form, Term};

// The next term of a merge of two forms, and what is left of each.
#[derive(Clone, Copy)]
pub struct Next {
    pub term: Term,
    pub a: Form,
    pub b: Form,
}

// The term at an index of the pools.
pub fn term_at(wires: &[u32], coefs: &[f32], i: usize) -> Term
    requires { (i < length wires.now) × (i < length coefs.now) }
    ensures { result ≡ termOf wires.now coefs.now i }
{
    Term {
        wire: Wire(wires[i]),
        coef: coefs[i],
    }
}

// A form past its first term.
fn rest(f: Form) -> Form
    requires { (0 < f.len) × (f.first + f.len < 2 ^ 64) }
    ensures { result ≡ record f { first = f.first + 1; len = f.len - 1 } }
{
    Form {
        first: f.first + 1,
        len: f.len - 1,
        ..f
    }
}

// The first term of the merge of two forms: of the form whose wire is lower, of both where their wires are equal, or of the only one that has any. Both
// terms are read before their wires are compared, and by two tests: otherwise it merges slower, by a fifth and more.
#[tactic(auto, using(crate::proofs::First::from_a, crate::proofs::First::from_b, crate::proofs::First::from_both))]
pub fn next_term(wires: &[u32], coefs: &[f32], a: Form, b: Form) -> Next
    requires some_left { 0 < a.len + b.len }
    requires wires_in_bounds { (a.first + a.len ≤ length wires.now) × (b.first + b.len ≤ length wires.now) }
    requires coefs_in_bounds { (a.first + a.len ≤ length coefs.now) × (b.first + b.len ≤ length coefs.now) }
    ensures { Stepped wires.now coefs.now a b result }
{
    if b.len == 0 {
        return Next {
            term: term_at(wires, coefs, a.first),
            a: rest(a),
            b,
        };
    }
    if a.len == 0 {
        return Next {
            term: term_at(wires, coefs, b.first),
            a,
            b: rest(b),
        };
    }
    let x = term_at(wires, coefs, a.first);
    let y = term_at(wires, coefs, b.first);
    if x.wire.0 < y.wire.0 {
        return Next {
            term: x,
            a: rest(a),
            b,
        };
    }
    if y.wire.0 < x.wire.0 {
        return Next {
            term: y,
            a,
            b: rest(b),
        };
    }
    Next {
        term: Term {
            coef: x.coef + y.coef,
            ..x
        },
        a: rest(a),
        b: rest(b),
    }
}

// Writes the term, unless its coefficient is zero; answers the index past it.
#[tactic(auto, unfolding(crate::specs::Sums::kept))]
pub fn push_term(wires: &mut [u32], coefs: &mut [f32], at: usize, t: Term) -> usize
    requires { (at < length wires.old) × (at < length coefs.old) }
    ensures { Put wires.old coefs.old at (kept (t ∷ [])) wires.new coefs.new result }
{
    if t.coef == 0.0 {
        return at;
    }
    wires[at] = t.wire.0;
    coefs[at] = t.coef;
    at + 1
}
