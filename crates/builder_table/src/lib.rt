// A builder: an arena of terms and a table of forms, both lent, with the ops in the table's last part; the slots below are for forms that callers keep.
#![tactic(auto)]

mod lent;
mod table;

ghost use Rattle.std.specs.Prelude.{◌<◌, ◌≡◌};
ghost use Rattle.builder_table.specs.Whole.{slots_most};
ghost use Rattle.builder_table.specs.Work.{loaded, saved, stood};
ghost use Rattle.builder_table.specs.Steps.{wire_in, plus_in, scaled_in, one_minus_in, push_in, full_in};
ghost use Rattle.builder_table.specs.Loans.{memory, standing, Makes, Leaves};

use index::Wire;
pub use lent::{Builder, Standing};
pub use table::Table;
use wire::Form;

impl Builder<'_> {
    // The form in slot k.
    pub fn load(&self, k: usize) -> Form
        requires { k < slots_most }
        ensures { result ≡ loaded (memory self.now) k }
    {
        Form {
            bias: self.biases[k],
            first: self.nums[2 * k],
            len: self.nums[2 * k + 1],
        }
    }

    // Puts a form into slot k.
    pub fn save(&mut self, k: usize, f: Form)
        requires { k < slots_most }
        ensures { Leaves self.old self.new (stood (saved (memory self.old) k f) (standing self.old)) }
    {
        self.nums[2 * k] = f.first;
        self.nums[2 * k + 1] = f.len;
        self.biases[k] = f.bias;
    }

    // Where building stands.
    pub fn standing(&self) -> Standing
        ensures { result ≡ standing self.now }
    {
        Standing {
            room: self.arena.room,
            ops: self.ops,
            cells: self.cells,
        }
    }

    // ---- forms in the arena; the table stays

    #[tactic(auto, unfolding(crate::specs::Steps::wire_in))]
    pub fn wire_form(&mut self, w: Wire) -> Form
        ensures { Makes self.old self.new result (wire_in (memory self.old) (standing self.old) w.0) }
    {
        self.arena.single(w)
    }

    #[tactic(auto, unfolding(crate::specs::Steps::plus_in))]
    pub fn plus(&mut self, f: Form, g: Form) -> Form
        ensures { Makes self.old self.new result (plus_in (memory self.old) (standing self.old) f g) }
    {
        self.arena.plus(f, g)
    }

    #[tactic(auto, unfolding(crate::specs::Steps::scaled_in))]
    pub fn scaled(&mut self, f: Form, factor: f32) -> Form
        ensures { Makes self.old self.new result (scaled_in (memory self.old) (standing self.old) f factor) }
    {
        self.arena.scaled(f, factor)
    }

    #[tactic(auto, unfolding(crate::specs::Steps::one_minus_in))]
    pub fn one_minus(&mut self, f: Form) -> Form
        ensures { Makes self.old self.new result (one_minus_in (memory self.old) (standing self.old) f) }
    {
        self.arena.one_minus(f)
    }

    // An op, left times max(0, gate); its wire as a form.
    #[tactic(auto, unfolding(crate::specs::Steps::push_in))]
    pub fn push(&mut self, left: Form, gate: Form) -> Form
        ensures { Makes self.old self.new result (push_in (memory self.old) (standing self.old) left gate) }
    {
        if Table::OPS_MOST <= self.ops || 65536 <= self.cells {
            return self.full();
        }
        let k = Table::OPS + 2 * self.ops;
        self.save(k, left);
        self.save(k + 1, gate);
        let wire = Wire((self.cells + self.ops) as u32);
        self.ops += 1;
        self.wire_form(wire)
    }

    // What is asked for is not there: nothing is done, and the flag falls.
    pub fn full(&mut self) -> Form
        ensures { Makes self.old self.new result (full_in (memory self.old) (standing self.old)) }
    {
        self.arena.room.refuse()
    }
}
