// These are the exports of libbench_steps.a: bench_steps' functions under their own names, with the
// clauses that bench_steps states. A crate is a library or a static library, so that they stand
// apart, and C takes the names.
#![tactic(auto)]

ghost use Rattle.std.specs.Prelude.{◌≡◌};
ghost use Rattle.scheduler.specs.Starts.{start_of};
ghost use Rattle.bench_steps.specs.ManySteps.{steps_on, steps_of, counted};

#[unsafe(no_mangle)]
pub extern "C" fn steps_on(state: &mut [u32], tally: &mut [u32], count: u32) -> u64
    ensures { (result ≡ (steps_on state.old tally.old count).answer)
        × (state.new ≡ (steps_on state.old tally.old count).state)
        × (tally.new ≡ (steps_on state.old tally.old count).tally) }
{
    bench_steps::steps_on(state, tally, count)
}

#[unsafe(no_mangle)]
pub extern "C" fn steps_by_value(table: &[u8], count: u32) -> u64
    ensures { result ≡ counted (steps_of (start_of (record { table = table.now; waking = 0 })).state count) }
{
    bench_steps::steps_by_value(table, count)
}
