// lower_ordered: one walk over an ordered composite's children, from what each would return.
#![tactic(auto)]

mod gates;
mod stops;

ghost use Rattle.std.specs.Prelude.{◌+◌, ◌≤◌, ◌<◌};
ghost use Rattle.builder_table.specs.Loans.{memory, standing};
ghost use Rattle.lower_passes.specs.Loans.{Decides};
ghost use Rattle.lower_passes.specs.Ordered.{ordered_in};

use builder_table::Builder;
use lower_passes::Decision;
use wire::Form;

// The slots where the children's bits stand, the first child's on top: of the status that the composite advances on, of the other finished status, of
// running.
#[derive(Clone, Copy)]
pub struct Tops {
    pub advance: usize,
    pub other: usize,
    pub run: usize,
}

// The n children are given the rows from `row` on.
#[tactic(auto, unfolding(lower_passes::specs::Ordered::ordered_in))]
pub fn lower_ordered(b: &mut Builder, cursor: Form, tops: Tops, row: usize, n: usize) -> Decision
    requires { (n ≤ tops.advance + 1) × (n ≤ tops.other + 1) × (n ≤ tops.run + 1) × (tops.advance < 768) × (tops.other < 768) × (tops.run < 768)
        × (row + n ≤ 128) }
    ensures { Decides b.old b.new result (ordered_in (memory b.old) (standing b.old) cursor tops.advance tops.other tops.run row n) }
{
    gates::gates(b, cursor, tops.advance, n);
    gates::clears(b, n);
    let stops = stops::stops(b, row, n);
    let picks = stops::picks(b, tops.other, tops.run, n);
    Decision {
        advance: b.one_minus(stops),
        other: picks.other,
        run: picks.run,
        cursor: picks.cursor,
    }
}
