// arbitrate's leaves, constants and decorators: what one would return if it were ticked.
ghost use Rattle.std.specs.Prelude.{◌≡◌, ◌≤◌, ◌<◌};
ghost use Rattle.builder_table.specs.Loans.{memory, standing};
ghost use Rattle.lower_passes.specs.Loans.{Raises};
ghost use Rattle.lower_passes.specs.Marks.{up_at};
ghost use Rattle.lower_passes.specs.Arbitrate as Pass;

use builder::Bit;
use builder_table::Builder;
use index::Wire;
use lower_passes::UpMark;
use status::{Status, StatusBits};

fn own(success: bool) -> Status
    ensures { result ≡ Pass.own_of success }
{
    if success {
        Status::Success
    } else {
        Status::Failure
    }
}

// Leaf slots are given from the last to the first.
#[tactic(auto, unfolding(lower_passes::specs::Arbitrate::leaf_in))]
pub fn up_leaf(b: &mut Builder, u: UpMark, i: usize, base: usize) -> UpMark
    requires { (i < 128) × Pass.Bounded (up_at (standing b.old) u) × (u.depth < 128) × (0 < u.slot) × (base ≤ 256) }
    ensures raised { Raises b.old b.new result (Pass.leaf_in (memory b.old) (up_at (standing b.old) u) i base) }
    ensures bounded { Pass.Bounded (up_at (standing b.new) result) }
{
    let slot = u.slot - 1;
    let first = base + 3 * slot;
    let x = StatusBits {
        success: Bit(b.wire_form(Wire(first as u32))),
        failure: Bit(b.wire_form(Wire((first + 1) as u32))),
        running: Bit(b.wire_form(Wire((first + 2) as u32))),
    };
    crate::state::put_raw(b, i, u.depth, x);
    UpMark {
        depth: u.depth + 1,
        slot,
        ..u
    }
}

#[tactic(auto, unfolding(lower_passes::specs::Arbitrate::fixed_within))]
pub fn up_fixed(b: &mut Builder, u: UpMark, i: usize, success: bool) -> UpMark
    requires { (i < 128) × Pass.Bounded (up_at (standing b.old) u) × (u.depth < 128) }
    ensures raised { Raises b.old b.new result (Pass.fixed_within (memory b.old) (up_at (standing b.old) u) i success) }
    ensures bounded { Pass.Bounded (up_at (standing b.new) result) }
{
    crate::state::put_raw(b, i, u.depth, StatusBits::constant(own(success)));
    UpMark {
        depth: u.depth + 1,
        ..u
    }
}

// A decorator takes the status on top of the stack, and its own takes that place.
#[tactic(auto, unfolding(lower_passes::specs::Arbitrate::invert_in))]
pub fn up_invert(b: &mut Builder, u: UpMark, i: usize) -> UpMark
    requires { (i < 128) × Pass.Bounded (up_at (standing b.old) u) × (0 < u.depth) }
    ensures raised { Raises b.old b.new result (Pass.invert_in (memory b.old) (up_at (standing b.old) u) i) }
    ensures bounded { Pass.Bounded (up_at (standing b.new) result) }
{
    let top = u.depth - 1;
    let x = crate::state::status_at(b, top);
    crate::state::put_raw(b, i, top, x.inverted());
    u
}

#[tactic(auto, unfolding(lower_passes::specs::Arbitrate::force_in, status::specs::Bits::finished_in, builder_table::specs::Steps::plus_in))]
pub fn up_force(b: &mut Builder, u: UpMark, i: usize, success: bool) -> UpMark
    requires { (i < 128) × Pass.Bounded (up_at (standing b.old) u) × (0 < u.depth) }
    ensures raised { Raises b.old b.new result (Pass.force_in (memory b.old) (up_at (standing b.old) u) i success) }
    ensures bounded { Pass.Bounded (up_at (standing b.new) result) }
{
    let top = u.depth - 1;
    let x = crate::state::status_at(b, top);
    let finished = status::finished(&mut b.arena, x);
    crate::state::put_raw(b, i, top, x.forced(own(success), finished));
    u
}
