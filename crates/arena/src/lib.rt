// Forms made in an arena: two lent pools of terms, of which those below a mark are in use. Nothing in use is written again, so a form keeps what it
// stands for, and forms may share their terms. Every operation is total: where there is no room it writes nothing, and a flag falls and stays down.
#![tactic(auto)]

ghost use Rattle.std.specs.Prelude.{◌≡◌, length};
ghost use Rattle.wire.specs.Storage.{term_slots};
ghost use Rattle.arena.specs.Arena.{formed, Leaves, offset_form, single_in, plus_in, scaled_in, one_minus_in};
ghost use Rattle.arena.specs.Loans.{LentAs};

use arena_room::Room;
use index::Wire;
use wire::Form;

// The two pools, and how much of them is in use.
#[derive(Drop)]
pub struct Arena<'a> {
    pub wires: &'a mut [u32],
    pub coefs: &'a mut [f32],
    pub room: Room,
}

// A form plus a number, which shares its terms.
pub fn offset(f: Form, shift: f32) -> Form
    ensures { result ≡ offset_form shift f }
{
    Form {
        bias: f.bias + shift,
        ..f
    }
}

impl Arena<'_> {
    // The form of one wire, with coefficient 1.
    #[tactic(auto, unfolding(crate::specs::Arena::single_in))]
    pub fn single(&mut self, w: Wire) -> Form
        ensures lent { LentAs self.old self.new }
        ensures leaves { Leaves (single_in self.old.wires.now self.old.coefs.now self.old.room w.0)
            self.new.wires.now self.new.coefs.now (formed result self.new.room) }
    {
        if !self.room.fits_single(self.slots()) {
            return self.room.refuse();
        }
        let used = self.room.used;
        self.wires[used] = w.0;
        self.coefs[used] = 1.0;
        self.room.take(0.0, used + 1)
    }

    // The sum of two forms: sorted by wire, duplicates summed, zero coefficients dropped. A sum with a form without terms shares the other's terms.
    #[tactic(auto, unfolding(crate::specs::Arena::plus_in))]
    pub fn plus(&mut self, a: Form, b: Form) -> Form
        ensures lent { LentAs self.old self.new }
        ensures leaves { Leaves (plus_in self.old.wires.now self.old.coefs.now self.old.room a b)
            self.new.wires.now self.new.coefs.now (formed result self.new.room) }
    {
        let bias = a.bias + b.bias;
        if b.len == 0 {
            return Form { bias, ..a };
        }
        if a.len == 0 {
            return Form { bias, ..b };
        }
        if !self.room.fits_sum(self.slots(), a, b) {
            return self.room.refuse();
        }
        let next = arena_terms::merge_terms(self.wires, self.coefs, self.room.used, a, b);
        self.room.take(bias, next)
    }

    // A form times a factor, with zero coefficients dropped, and no -0.0.
    #[tactic(auto, unfolding(crate::specs::Arena::scaled_in))]
    pub fn scaled(&mut self, a: Form, factor: f32) -> Form
        ensures lent { LentAs self.old self.new }
        ensures leaves { Leaves (scaled_in self.old.wires.now self.old.coefs.now self.old.room a factor)
            self.new.wires.now self.new.coefs.now (formed result self.new.room) }
    {
        let bias = a.bias * factor + 0.0;
        if !self.room.fits_scaled(self.slots(), a) {
            return self.room.refuse();
        }
        let next = arena_terms::scale_terms(self.wires, self.coefs, self.room.used, a, factor);
        self.room.take(bias, next)
    }

    // 1 less a form.
    #[tactic(auto, unfolding(crate::specs::Arena::one_minus_in))]
    pub fn one_minus(&mut self, a: Form) -> Form
        ensures lent { LentAs self.old self.new }
        ensures leaves { Leaves (one_minus_in self.old.wires.now self.old.coefs.now self.old.room a)
            self.new.wires.now self.new.coefs.now (formed result self.new.room) }
    {
        offset(self.scaled(a, -1.0), 1.0)
    }

    // How many terms both pools hold.
    fn slots(&self) -> usize
        ensures { result ≡ term_slots (length self.now.wires.now) (length self.now.coefs.now) }
    {
        wire::term_slots(self.wires.len(), self.coefs.len())
    }
}
