// builder.rs: bit algebra and comparisons. A bit or a count is a form in the builder's arena; each operation makes exactly its op, or none where an operand
// is constant. The two identities hold of counts, which are natural numbers:
//   [count == 0] = max(0, 1 - count)
//   [count >= k] = max(0, count - k + 1) - max(0, count - k)
#![tactic(auto)]

ghost use Rattle.std.specs.Prelude.{◌≡◌};
ghost use Rattle.arena.specs.Arena.{formed, Leaves, one_minus_in, plus_in};
ghost use Rattle.arena.specs.Loans.{LentAs};
ghost use Rattle.builder_table.specs.Loans.{memory, standing, Makes};
ghost use Rattle.builder.specs.Bits.{bit_form, is_true_form, is_false_form, minus_in, relu_in, is_zero_in, step_within, at_least_in, and_in, either_in, or_in};

use arena::Arena;
use builder_table::Builder;
use wire::Form;

// A form that holds exactly 0 or 1.
#[derive(Clone, Copy)]
pub struct Bit(pub Form);

// A form that holds a natural number.
#[derive(Clone, Copy)]
pub struct Count(pub Form);

impl Bit {
    // The constant bit.
    pub fn constant(set: bool) -> Self
        ensures { result.0 ≡ bit_form set }
    {
        Self(Form::constant(if set { 1.0 } else { 0.0 }))
    }

    // Whether it is decided, and set.
    fn is_true(self) -> bool
        ensures { result ≡ is_true_form self.0 }
    {
        let f = self.0;
        (f.len == 0) & !(f.bias == 0.0)
    }

    // Whether it is decided, and not set.
    fn is_false(self) -> bool
        ensures { result ≡ is_false_form self.0 }
    {
        let f = self.0;
        (f.len == 0) & (f.bias == 0.0)
    }
}

// `1 - bit`. No op, so that no table is asked for.
pub fn not(arena: &mut Arena, bit: Bit) -> Bit
    ensures lent { LentAs arena.old arena.new }
    ensures leaves { Leaves (one_minus_in arena.old.wires.now arena.old.coefs.now arena.old.room bit.0)
        arena.new.wires.now arena.new.coefs.now (formed result.0 arena.new.room) }
{
    Bit(arena.one_minus(bit.0))
}

// The sum of two bits that cannot both be 1. No op, so that no table is asked for.
pub fn or_disjoint(arena: &mut Arena, left: Bit, right: Bit) -> Bit
    ensures lent { LentAs arena.old arena.new }
    ensures leaves { Leaves (plus_in arena.old.wires.now arena.old.coefs.now arena.old.room left.0 right.0)
        arena.new.wires.now arena.new.coefs.now (formed result.0 arena.new.room) }
{
    Bit(arena.plus(left.0, right.0))
}

// `[count == 0]`. One op, or none if the count is constant.
#[tactic(auto, unfolding(crate::specs::Bits::is_zero_in))]
pub fn is_zero(b: &mut Builder, count: Count) -> Bit
    ensures { Makes b.old b.new result.0 (is_zero_in (memory b.old) (standing b.old) count.0) }
{
    let f = count.0;
    if f.len == 0 {
        return Bit::constant(f.bias == 0.0);
    }
    let less = b.one_minus(f);
    Bit(relu(b, less))
}

// `[count >= threshold]`. Two ops, or none if the count is constant.
#[tactic(auto, unfolding(crate::specs::Bits::at_least_in))]
pub fn at_least(b: &mut Builder, count: Count, threshold: f32) -> Bit
    ensures { Makes b.old b.new result.0 (at_least_in (memory b.old) (standing b.old) count.0 threshold) }
{
    let f = count.0;
    if f.len == 0 {
        return Bit::constant(threshold <= f.bias);
    }
    let shifted = arena::offset(f, 1.0 - threshold);
    Bit(step(b, shifted))
}

// `left AND right`. One op, or none where either is constant.
#[tactic(auto, unfolding(crate::specs::Bits::and_in))]
pub fn and(b: &mut Builder, left: Bit, right: Bit) -> Bit
    ensures { Makes b.old b.new result.0 (and_in (memory b.old) (standing b.old) left.0 right.0) }
{
    if left.is_true() {
        return right;
    }
    if right.is_true() {
        return left;
    }
    if left.is_false() | right.is_false() {
        return Bit::constant(false);
    }
    Bit(b.push(left.0, right.0))
}

// `left OR right`. One op, or none where either is constant.
#[tactic(auto, unfolding(crate::specs::Bits::or_in))]
pub fn or(b: &mut Builder, left: Bit, right: Bit) -> Bit
    ensures { Makes b.old b.new result.0 (or_in (memory b.old) (standing b.old) left.0 right.0) }
{
    if left.is_true() | right.is_true() {
        return Bit::constant(true);
    }
    if left.is_false() {
        return right;
    }
    if right.is_false() {
        return left;
    }
    Bit(either(b, left.0, right.0))
}

// a + b - a × b. One op.
#[tactic(auto, unfolding(crate::specs::Bits::either_in))]
fn either(b: &mut Builder, f: Form, g: Form) -> Form
    ensures { Makes b.old b.new result (either_in (memory b.old) (standing b.old) f g) }
{
    let product = b.push(f, g);
    let sum = b.plus(f, g);
    minus(b, sum, product)
}

// max(0, shifted) - max(0, shifted - 1). Two ops.
#[tactic(auto, unfolding(crate::specs::Bits::step_within))]
fn step(b: &mut Builder, shifted: Form) -> Form
    ensures { Makes b.old b.new result (step_within (memory b.old) (standing b.old) shifted) }
{
    let high = relu(b, shifted);
    let low = relu(b, arena::offset(shifted, -1.0));
    minus(b, high, low)
}

#[tactic(auto, unfolding(crate::specs::Bits::minus_in))]
fn minus(b: &mut Builder, f: Form, g: Form) -> Form
    ensures { Makes b.old b.new result (minus_in (memory b.old) (standing b.old) f g) }
{
    let less = b.scaled(g, -1.0);
    b.plus(f, less)
}

// `max(0, form)`. One op.
#[tactic(auto, unfolding(crate::specs::Bits::relu_in))]
fn relu(b: &mut Builder, form: Form) -> Form
    ensures { Makes b.old b.new result (relu_in (memory b.old) (standing b.old) form) }
{
    b.push(Form::constant(1.0), form)
}
