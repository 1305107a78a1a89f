// These are the exports of libnode.a, one for each call of include/node.h: node's functions under
// their own names, with the clauses that node states. A crate is a library or a static library, so
// that they stand apart, and C takes the names.
#![tactic(auto)]

ghost use Rattle.std.specs.Prelude.{◌≡◌};
ghost use Rattle.node.specs.Calls.{admit_on, start_on, release_on, step_on, energy_on};

#[unsafe(no_mangle)]
pub extern "C" fn node_admit(table: &[u8], verdict: &mut [u32]) -> u64
    ensures { (result ≡ (admit_on table.now verdict.old).answer)
        × (verdict.new ≡ (admit_on table.now verdict.old).verdict) }
{
    node::node_admit(table, verdict)
}

#[unsafe(no_mangle)]
pub extern "C" fn node_start(table: &[u8], waking: u32, state: &mut [u32]) -> u64
    ensures { (result ≡ (start_on (record { table = table.now; waking = waking }) state.old).answer)
        × (state.new ≡ (start_on (record { table = table.now; waking = waking }) state.old).state) }
{
    node::node_start(table, waking, state)
}

#[unsafe(no_mangle)]
pub extern "C" fn node_release(state: &mut [u32], task: u32, demand: u32) -> u64
    ensures { (result ≡ (release_on state.old task demand).answer)
        × (state.new ≡ (release_on state.old task demand).state) }
{
    node::node_release(state, task, demand)
}

#[unsafe(no_mangle)]
pub extern "C" fn node_step(state: &mut [u32], tally: &mut [u32]) -> u64
    ensures { (result ≡ (step_on state.old tally.old).answer)
        × (state.new ≡ (step_on state.old tally.old).state)
        × (tally.new ≡ (step_on state.old tally.old).tally) }
{
    node::node_step(state, tally)
}

#[unsafe(no_mangle)]
pub extern "C" fn node_energy(tally: &[u32], run: u32, sleep: u32, waking: u32) -> u64
    ensures { result ≡ energy_on tally.now run sleep waking }
{
    node::node_energy(tally, run, sleep, waking)
}
