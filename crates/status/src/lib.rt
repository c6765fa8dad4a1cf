// status.rs: the three-valued status, as bits. All three 0 is a node that was not ticked.
#![tactic(auto)]

ghost use Rattle.std.specs.Prelude.{◌≡◌, true};
ghost use Rattle.arena.specs.Arena.{formed, Leaves, plus_in};
ghost use Rattle.arena.specs.Loans.{LentAs};
ghost use Rattle.status.specs.Bits.{unticked_bits, with_bit, inverted_bits, forced_bits};
ghost use Rattle.builder.specs.Bits.{bit_form};

use arena::Arena;
use builder::Bit;

#[derive(Clone, Copy)]
pub enum Status {
    Success,
    Failure,
    Running,
}

#[derive(Clone, Copy)]
pub struct StatusBits {
    pub success: Bit,
    pub failure: Bit,
    pub running: Bit,
}

impl StatusBits {
    // The all-zero encoding: the node was not ticked.
    pub fn unticked() -> Self
        ensures { result ≡ unticked_bits }
    {
        let no = Bit::constant(false);
        Self {
            success: no,
            failure: no,
            running: no,
        }
    }

    // A constant status.
    pub fn constant(status: Status) -> Self
        ensures { result ≡ with_bit unticked_bits status (bit_form true) }
    {
        Self::unticked().with(status, Bit::constant(true))
    }

    // The same bits but for that of one status.
    #[tactic(auto, unfolding(crate::specs::Bits::with_bit))]
    pub fn with(self, status: Status, bit: Bit) -> Self
        ensures { result ≡ with_bit self status bit.0 }
    {
        match status {
            Status::Success => Self {
                success: bit,
                ..self
            },
            Status::Failure => Self {
                failure: bit,
                ..self
            },
            Status::Running => Self {
                running: bit,
                ..self
            },
        }
    }

    // Success and failure exchanged. No op.
    pub fn inverted(self) -> Self
        ensures { result ≡ inverted_bits self }
    {
        Self {
            success: self.failure,
            failure: self.success,
            running: self.running,
        }
    }

    // Running as it is, and all that is finished as one status, whose bit `finished` is. No op.
    #[tactic(auto, unfolding(crate::specs::Bits::forced_bits))]
    pub fn forced(self, own: Status, finished: Bit) -> Self
        ensures { result ≡ forced_bits self own finished.0 }
    {
        let rest = Self {
            running: self.running,
            ..Self::unticked()
        };
        rest.with(own, finished)
    }
}

// Whether the node finished: the sum of success and failure. No op, so that no table is asked for.
pub fn finished(arena: &mut Arena, status: StatusBits) -> Bit
    ensures lent { LentAs arena.old arena.new }
    ensures leaves { Leaves (plus_in arena.old.wires.now arena.old.coefs.now arena.old.room status.success.0 status.failure.0)
        arena.new.wires.now arena.new.coefs.now (formed result.0 arena.new.room) }
{
    builder::or_disjoint(arena, status.success, status.failure)
}
