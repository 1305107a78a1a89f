// This is for the bench alone: many steps are made inside one call, so that the step is measured
// without the cost of a call from outside; on words, and with the state by value. Crate
// bench_steps_c exports both.
#![tactic(auto)]

ghost use Rattle.std.specs.Prelude.{◌≡◌};
ghost use Rattle.scheduler.specs.Starts.{start_of};
ghost use Rattle.bench_steps.specs.ManySteps.{steps_on, steps_of, counted};

use decisions::Tally;
use node::node_step;
use scheduler::{start, step_on};

// The call makes so many steps on a state's words, and gives the answer of the last, or 0 where
// there is none.
#[tactic(auto, unfolding(crate::specs::ManySteps::steps_on))]
pub fn steps_on(state: &mut [u32], tally: &mut [u32], count: u32) -> u64
    ensures { (result ≡ (steps_on state.old tally.old count).answer)
        × (state.new ≡ (steps_on state.old tally.old count).state)
        × (tally.new ≡ (steps_on state.old tally.old count).tally) }
{
    let mut answer = 0;
    for _ in 0..count {
        answer = node_step(state, tally);
    }
    answer
}

// The call starts with no waking, makes so many steps with the state by value, and gives the slot
// ticks, and above them the tail ticks.
#[tactic(auto, unfolding(crate::specs::ManySteps::steps_of))]
pub fn steps_by_value(table: &[u8], count: u32) -> u64
    ensures { result ≡ counted (steps_of (start_of (record { table = table.now; waking = 0 })).state count) }
{
    let mut state = start(table, 0).state;
    let mut tally = Tally::default();
    for _ in 0..count {
        let moved = step_on(state, tally);
        state = moved.state;
        tally = moved.tally;
    }
    // By `as`, since with `from` the search finds no bound of what a loop left.
    tally.slot as u64 + 4294967296 * tally.tail as u64
}
