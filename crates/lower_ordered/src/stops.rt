// The last two loops of lower_ordered: which children are reached, at which the walk stops, and the stop's status with its position. A stop is one child
// at most, so every sum over stops is a bit.
ghost use Rattle.std.specs.Prelude.{◌+◌, ◌≤◌, ◌<◌};
ghost use Rattle.exact.specs.Whole.{zero32};
ghost use Rattle.wire.specs.Terms.{constant_form};
ghost use Rattle.builder_table.specs.Loans.{memory, standing, Makes, Leaves};
ghost use Rattle.lower_passes.specs.Loans.{Chooses};
ghost use Rattle.lower_passes.specs.Marks.{picked_at};
ghost use Rattle.lower_passes.specs.Ordered.{no_pick};
ghost use Rattle.lower_passes.specs.Stops.{reach_in, stop_in, stops_in, run_in, pick_in, picks_in};

use builder::Bit;
use builder_table::{Builder, Table};
use lower_passes::Picks;
use wire::Form;

// The answer is the sum of all stops.
#[tactic(auto, unfolding(lower_passes::specs::Stops::stops_in))]
pub fn stops(b: &mut Builder, row: usize, n: usize) -> Form
    requires { row + n ≤ 128 }
    ensures { Makes b.old b.new result (stops_in (memory b.old) (standing b.old) (constant_form zero32) row 0 n) }
{
    let mut sum = Form::constant(0.0);
    for k in 0..n {
        b.save(Table::AFTER_STOP + (row + k), sum);
        reach_one(b, k, row + k);
        sum = stop_one(b, sum, k);
    }
    sum
}

#[tactic(auto, unfolding(lower_passes::specs::Stops::reach_in, builder_table::specs::Steps::one_minus_in))]
fn reach_one(b: &mut Builder, k: usize, row: usize)
    requires { (k < 128) × (row < 128) }
    ensures { Leaves b.old b.new (reach_in (memory b.old) (standing b.old) k row) }
{
    let clear = Bit(b.load(Table::CLEAR + k));
    let before = Bit(b.load(Table::BEFORE + k));
    let ahead = builder::not(&mut b.arena, before);
    let reach = builder::and(b, clear, ahead);
    b.save(Table::REACH + row, reach.0);
}

// The answer is the sum of the stops with this child's.
#[tactic(auto, unfolding(lower_passes::specs::Stops::stop_in))]
fn stop_one(b: &mut Builder, sum: Form, k: usize) -> Form
    requires { k < 128 }
    ensures { Makes b.old b.new result (stop_in (memory b.old) (standing b.old) sum k) }
{
    let clear = Bit(b.load(Table::CLEAR + k));
    let blocked = Bit(b.load(Table::BLOCKED + k));
    let stop = builder::and(b, clear, blocked);
    b.save(Table::STOPS + k, stop.0);
    b.plus(sum, stop.0)
}

// The children's bits stand in the n slots up to `others` and up to `runs`.
#[tactic(auto, unfolding(lower_passes::specs::Stops::picks_in))]
pub fn picks(b: &mut Builder, others: usize, runs: usize, n: usize) -> Picks
    requires { (n ≤ 128) × (n ≤ others + 1) × (n ≤ runs + 1) × (others < 2560) × (runs < 2560) }
    ensures { Chooses b.old b.new result (picks_in (memory b.old) (no_pick (standing b.old)) others runs 0 n) }
{
    let none = Form::constant(0.0);
    let mut picks = Picks {
        other: none,
        run: none,
        cursor: none,
    };
    for k in 0..n {
        let finished = Bit(b.load(others - k));
        let running = Bit(b.load(runs - k));
        picks = pick_one(b, picks, k, finished, running);
    }
    picks
}

#[tactic(auto, unfolding(lower_passes::specs::Stops::pick_in))]
fn pick_one(b: &mut Builder, picks: Picks, k: usize, finished: Bit, running: Bit) -> Picks
    requires { k < 128 }
    ensures { Chooses b.old b.new result (pick_in (memory b.old) (picked_at (standing b.old) picks) k finished.0 running.0) }
{
    let stop = Bit(b.load(Table::STOPS + k));
    let finishes = builder::and(b, stop, finished);
    let runs = builder::and(b, stop, running);
    let other = b.plus(picks.other, finishes.0);
    add_run(b, Picks { other, ..picks }, runs, k)
}

// A stop that runs at child k adds k to the cursor.
#[tactic(auto, using(exact::proofs::Whole::of_nat_diff), unfolding(lower_passes::specs::Stops::run_in))]
fn add_run(b: &mut Builder, picks: Picks, runs: Bit, k: usize) -> Picks
    requires { k < 128 }
    ensures { Chooses b.old b.new result (run_in (memory b.old) (standing b.old) picks.run picks.cursor runs.0 k picks.other) }
{
    let run = b.plus(picks.run, runs.0);
    let position = b.scaled(runs.0, k as f32);
    let cursor = b.plus(picks.cursor, position);
    Picks {
        run,
        cursor,
        ..picks
    }
}
