// The room of an arena: whether there is enough for an operation, and what the operation takes of it. An inner crate: the arena above it writes the terms.
#![tactic(auto)]

ghost use Rattle.std.specs.Prelude.{◌≡◌, true, false, ◌+◌, ◌-◌, ◌≤◌, leb};
ghost use Rattle.exact.specs.Whole.{zero32};
ghost use Rattle.wire.specs.Terms.{constant_form};
ghost use Rattle.arena_room.specs.Fits.{in_use, single_fits, fits_sum, fits_scaled};

use wire::Form;

// How many terms of the pools are in use, and whether all that was asked so far had room. The flag falls and stays down: what is in use is so still.
#[derive(Clone, Copy)]
pub struct Room {
    pub used: usize,
    pub ok: bool,
}

impl Room {
    // No room: nothing is written, and the flag falls.
    pub fn refuse(&mut self) -> Form
        ensures value { result ≡ constant_form zero32 }
        ensures room_after { self.new ≡ record { used = self.old.used; ok = false } }
    {
        self.ok = false;
        Form::constant(0.0)
    }

    // The terms from those in use up to `next`, just written: now they are in use too.
    pub fn take(&mut self, bias: f32, next: usize) -> Form
        requires { self.old.used ≤ next }
        ensures value { result ≡ record { bias = bias; first = self.old.used; len = next - self.old.used } }
        ensures room_after { self.new ≡ record { used = next; ok = true } }
    {
        let first = self.used;
        *self = Self {
            used: next,
            ok: true,
        };
        Form {
            bias,
            first,
            len: next - first,
        }
    }

    // Whether one term more goes into the slots.
    pub fn fits_single(self, slots: usize) -> bool
        ensures { result ≡ single_fits slots self }
    {
        self.ok & (self.used < slots)
    }

    // Whether both forms are in use, and as many terms as they have go in.
    pub fn fits_sum(self, slots: usize, a: Form, b: Form) -> bool
        ensures { result ≡ fits_sum slots self a b }
    {
        self.ok & (self.in_use(a) & (self.in_use(b) & self.has(slots, a.len, b.len)))
    }

    // The same of one form.
    pub fn fits_scaled(self, slots: usize, a: Form) -> bool
        ensures { result ≡ fits_scaled slots self a }
    {
        self.ok & (self.in_use(a) & self.has(slots, a.len, 0))
    }

    fn in_use(self, f: Form) -> bool
        ensures { result ≡ in_use self.used f }
    {
        f.first <= self.used && f.len <= self.used - f.first
    }

    // Whether n and m terms more go into the slots. Sums of lengths may not fit a usize, so it is asked by differences.
    fn has(self, slots: usize, n: usize, m: usize) -> bool
        ensures { result ≡ leb (self.used + n + m) slots }
    {
        if slots < self.used {
            return false;
        }
        let free = slots - self.used;
        n <= free && m <= free - n
    }
}
