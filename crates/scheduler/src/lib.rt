// The schedule of a node goes tick by tick: start makes a state by value, release and step carry it
// on, and the caller lends a tally. Any state, tally, task number and demand may be handed in; what
// is refused comes back unchanged. specs/ says what each call gives.
#![tactic(auto)]

ghost use Rattle.std.specs.Prelude.{◌≡◌, ◌≤◌, ◌<◌};
ghost use Rattle.decisions.specs.Fits.{clock_end, total};
ghost use Rattle.scheduler.specs.States.{entry_in, head_of, places_fit, state_fits, entries_of};
ghost use Rattle.scheduler.specs.Starts.{read_given, start_of};
ghost use Rattle.scheduler.specs.Releases.{release_answer, release_of};
ghost use Rattle.scheduler.specs.Steps.{tick_of, after_tick, raised as raisedOf, step_of, Ready};

use decisions::{
    Count, Entry, Head, Job, Places, Tally, Tick, count_of, head_fits, may_release, may_step,
    next_tick, place_fits, waking_fits, worked,
};
use table::{PLACES, Record, Refusal, read, record_at};

// A state holds the table, the clock, the waking length V and one entry per task. A place after
// those of the n tasks is spare: a record of zeros that rests and reads never (RULES 4). A node has
// no heap, so that n stands beside an array of fixed size.
#[derive(Clone, Copy, Debug, PartialEq, Eq)]
pub struct State {
    pub sleep: Record,
    pub n: u32,
    pub clock: u32,
    pub waking: u32,
    pub entries: [Entry; PLACES],
}

impl Places for State {
    ghost entry = { λ state i. entry_in state i };

    fn entry(&self, i: u32) -> Entry {
        self.entries.get(i as usize).copied().unwrap_or_default()
    }
}

// A call that is handed a state, or makes one, answers and hands a state back, also where it refuses:
// the very state, or after a refused start one of no tasks (RULES 3.7 and 3.9).
#[derive(Clone, Copy, Debug, PartialEq, Eq)]
pub struct Handed<T> {
    pub answer: Result<T, Refusal>,
    pub state: State,
}

// `Moved` is what a step gives, with the tally beside it, by value: a refused one hands both back.
#[derive(Clone, Copy, Debug, PartialEq, Eq)]
pub struct Moved {
    pub answer: Result<Tick, Refusal>,
    pub tally: Tally,
    pub state: State,
}

// A start gives the fresh state of a table and a waking length: clock 0, every task resting, never
// released. Refusals 1 to 4 and 14 come with a state of no tasks, which every step and release
// refuses. Refusal 5 is not given here. Table and V come apart, as C hands them to node_start.
#[tactic(auto, using(crate::proofs::GivenLaws::given_set))]
pub fn start(table: &[u8], waking: u32) -> Handed<()>
    ensures { result ≡ start_of (record { table = table.now; waking = waking }) }
{
    match read_given(table, waking) {
        Ok(tasks) => Handed {
            answer: Ok(()),
            state: State {
                sleep: record_at(table, 0),
                n: tasks,
                clock: 0,
                waking,
                entries: fresh(table, tasks),
            },
        },
        // Field by field: of an array the clause of Default speaks element by element, and a law
        // would be needed for this place alone.
        Err(refusal) => Handed {
            answer: Err(refusal),
            state: State {
                sleep: Record::default(),
                n: 0,
                clock: 0,
                waking: 0,
                entries: [Entry::default(); PLACES],
            },
        },
    }
}

// A release of a task at the state's clock with a demand gives refusals 6 to 12, the state
// unchanged, or the state with the task at work. Task and demand come apart, as C hands them to
// node_release.
#[tactic(auto, using(crate::proofs::ReleaseLaws::accepted_says))]
pub fn release(mut state: State, task: u32, demand: u32) -> Handed<()>
    ensures { result ≡ release_of state task demand }
{
    let answer = release_answer(&state, task, demand);
    if answer.is_ok() {
        // The engine on words sets the same two fields: a function of both would be these lines, with
        // a contract and a definition besides.
        let clock = state.clock;
        let entry = &mut state.entries[(task - 1) as usize];
        entry.job = Job::Working {
            release: clock,
            left: demand,
        };
        entry.last = Some(clock);
    }
    Handed { answer, state }
}

// A step makes one tick, with the caller's tally brought up to date where it stands: it gives
// refusals 6 and 7, state and tally unchanged, or what the tick was.
pub fn step(state: State, tally: &mut Tally) -> Handed<Tick>
    ensures { (result ≡ record { answer = (step_of state tally.old).answer; state = (step_of state tally.old).state })
        × (tally.new ≡ (step_of state tally.old).tally) }
{
    let moved = step_on(state, *tally);
    *tally = moved.tally;
    Handed {
        answer: moved.answer,
        state: moved.state,
    }
}

// `step_on` is `step` with the tally by value.
#[tactic(auto, unfolding(crate::specs::Steps::step_of))]
pub fn step_on(state: State, tally: Tally) -> Moved
    ensures { result ≡ step_of state tally }
{
    match may_step(fits(&state), tally, state.clock) {
        Err(refusal) => Moved {
            answer: Err(refusal),
            tally,
            state,
        },
        Ok(()) => {
            let tick = next_tick(head_of(&state), &state);
            Moved {
                answer: Ok(tick),
                tally: raised(tally, count_of(head_of(&state), tick)),
                state: after_tick(state, tick),
            }
        }
    }
}

// `read_given` reads what a start is given: the table's refusals come first, then 14.
#[tactic(auto, unfolding(crate::specs::Starts::read_given))]
fn read_given(table: &[u8], waking: u32) -> Result<u32, Refusal>
    ensures { result ≡ read_given (record { table = table.now; waking = waking }) }
{
    let tasks = read(table)?;
    if waking_fits(waking, record_at(table, 0)) {
        Ok(tasks)
    } else {
        Err(Refusal::LongWaking)
    }
}

// `fresh` gives the entries of a table's n tasks, resting and never released, and spare places.
#[tactic(auto, unfolding(crate::specs::States::entries_of))]
fn fresh(table: &[u8], n: u32) -> [Entry; PLACES]
    requires { n ≤ 16 }
    ensures { result ≡ entries_of table.now n }
{
    let mut entries = [Entry::default(); PLACES];
    for i in 0..n as usize {
        entries[i] = Entry {
            task: record_at(table, i + 1),
            ..Entry::default()
        };
    }
    entries
}

// A head is read out of a state: a part of it, and no other form of the same.
fn head_of(state: &State) -> Head
    ensures { result ≡ head_of state.now }
{
    Head {
        sleep: state.sleep,
        n: state.n,
        clock: state.clock,
        waking: state.waking,
    }
}

// `fits` tells whether a state keeps every rule that is checked for 6. On words it is asked besides
// that they encode a state, place by place, so that no test serves both engines.
#[tactic(auto, unfolding(crate::specs::States::state_fits, crate::specs::States::record_in))]
fn fits(state: &State) -> bool
    ensures { result ≡ state_fits state.now }
{
    let head = head_of(state);
    head_fits(head, state.entries[0].task) && places_fit(head, &state.entries)
}

// `places_fit` tells whether every place, a task's or a spare one, keeps its rules. The engine on
// words asks besides, in the same pass, that each place is encoded, so that no test serves both.
#[tactic(auto, unfolding(crate::specs::States::period_before, base::specs::Every::every))]
fn places_fit(head: Head, entries: &[Entry; PLACES]) -> bool
    ensures { result ≡ places_fit head entries.now }
{
    let mut above = 0;
    for (i, &e) in entries.iter().enumerate() {
        if !place_fits(head, i as u32, above, e) {
            return false;
        }
        above = e.task.period;
    }
    true
}

// `release_answer` makes the tests of a release in the order of their numbers.
#[tactic(auto, unfolding(crate::specs::Releases::release_answer))]
fn release_answer(state: &State, task: u32, demand: u32) -> Result<(), Refusal>
    ensures { result ≡ release_answer state.now task demand }
{
    if !fits(state) {
        return Err(Refusal::Unfit);
    }
    // Number 0 reads the first place.
    let e = state.entry(task.saturating_sub(1));
    may_release(head_of(state), e, task, demand)
}

// `after_tick` is the state after its tick, by value; what a run makes of an entry is `worked`, as
// for the engine on words, which writes one place.
fn after_tick(mut state: State, tick: Tick) -> State
    requires { Ready state × (tick ≡ tick_of state) }
    ensures { result ≡ after_tick state tick }
{
    state.clock += 1;
    if let Tick::Run(task) = tick {
        let at = (task - 1) as usize;
        state.entries[at] = worked(state.entries[at]);
    }
    state
}

// `raised` is the tally with a count one up. On words one word is raised where it stands, and a tally
// made and written back would be no plainer.
fn raised(mut tally: Tally, count: Count) -> Tally
    requires { total tally < clock_end }
    ensures { result ≡ raisedOf tally count }
{
    match count {
        Count::Runs => tally.run += 1,
        Count::Slots => tally.slot += 1,
        Count::Tails => tally.tail += 1,
        Count::Wakings => tally.waking += 1,
    }
    tally
}
