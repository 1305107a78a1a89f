// Every decision about a state is a function here, over the head of the state and one entry or what
// holds all of them, so that
// the engine by value and the one on words share it: what fits, what may come, what a tick is, what
// it changes, and the energy of a tally. specs/ says what each gives.
#![tactic(auto)]

ghost use Rattle.std.specs.Prelude.{ℕ, ◌≡◌, ◌-◌, ◌<◌};
ghost use Rattle.base.specs.First.{found_in};
ghost use Rattle.decisions.specs.declared.Entry.{Entry};
ghost use Rattle.decisions.specs.Fits.{last_fits, job_fits, task_fits, spare_fits, place_fits, waking_fits, head_fits, total, tally_fits};
ghost use Rattle.decisions.specs.Asks.{early, ask_spacing, may_release, may_step};
ghost use Rattle.decisions.specs.Ticks.{since_boundary, last_boundary, in_slot, wakes, came, first_come, run_or_tail, next_tick, worked_of, count_of};
ghost use Rattle.decisions.specs.Energies.{energy_of, nanojoules_of};

use table::{MOST_TASKS, Record, Refusal, record_fits, release_time, sleep_fits};

// CLOCK_END is the last clock, and POWER_MOST the largest power figure in microwatts.
pub const CLOCK_END: u32 = 1000000000;

pub const POWER_MOST: u32 = 1000000;

// A working task's job has its release tick and the work it has left. The customer named this form
// (docs/DECISIONS.md, "Forms"); without that it would be an `Option`.
#[derive(Clone, Copy, Debug, Default, PartialEq, Eq)]
pub enum Job {
    #[default]
    Resting,
    Working { release: u32, left: u32 },
}

// An entry has a task's record, its job and its last release tick: `None` is the mark "never". The
// default is what a spare place holds.
#[derive(Clone, Copy, Debug, Default, PartialEq, Eq)]
pub struct Entry {
    pub task: Record,
    pub job: Job,
    pub last: Option<u32>,
}

// A head is what a state holds beside its entries: the sleep record, the number of tasks, the clock
// and the waking length V.
#[derive(Clone, Copy, Debug, Default, PartialEq, Eq)]
pub struct Head {
    pub sleep: Record,
    pub n: u32,
    pub clock: u32,
    pub waking: u32,
}

// A tally counts the ticks of a run by kind, a slot tick as slot or as waking. They sum to the clock.
#[derive(Clone, Copy, Debug, Default, PartialEq, Eq)]
pub struct Tally {
    pub run: u32,
    pub slot: u32,
    pub tail: u32,
    pub waking: u32,
}

// `Count` names a count of a tally.
#[derive(Clone, Copy, Debug, PartialEq, Eq)]
pub enum Count {
    Runs,
    Slots,
    Tails,
    Wakings,
}

// `Tick` says what a tick was: a run of the task with that number, a slot tick or a tail tick.
#[derive(Clone, Copy, Debug, PartialEq, Eq)]
pub enum Tick {
    Run(u32),
    Slot,
    Tail,
}

// These are the powers, in microwatts, of a run tick, of a slot or tail tick, and of a waking tick.
#[derive(Clone, Copy, Debug, Default, PartialEq, Eq)]
pub struct Powers {
    pub run: u32,
    pub sleep: u32,
    pub waking: u32,
}

// The energy of a tally is given in nanojoules, or refused with 6 or 13.
pub fn energy(tally: Tally, powers: Powers) -> Result<u64, Refusal>
    ensures { result ≡ energy_of tally powers }
{
    if u64::from(CLOCK_END) < total_of(tally) {
        return Err(Refusal::Unfit);
    }
    if POWER_MOST < powers.run || POWER_MOST < powers.sleep || POWER_MOST < powers.waking {
        return Err(Refusal::Power);
    }
    let runs = u64::from(tally.run) * u64::from(powers.run);
    let slots = u64::from(tally.slot) * u64::from(powers.sleep);
    let tails = u64::from(tally.tail) * u64::from(powers.sleep);
    let wakings = u64::from(tally.waking) * u64::from(powers.waking);
    Ok(runs + slots + tails + wakings)
}

// `nanojoules` is what a reading counts as: a refused one is 0.
pub fn nanojoules(reading: Result<u64, Refusal>) -> u64
    ensures { result ≡ nanojoules_of reading }
{
    reading.unwrap_or(0)
}

// `waking_fits` tells whether a waking length is at most S.
pub fn waking_fits(waking: u32, sleep: Record) -> bool
    ensures { result ≡ waking_fits waking sleep }
{
    waking <= sleep.work
}

// `head_fits` tests the rules that are not of a place: the number of tasks, the clock, the sleep
// record beside the first task's, and the waking length.
pub fn head_fits(head: Head, first: Record) -> bool
    ensures { result ≡ head_fits head first }
{
    1 <= head.n
        && head.n <= MOST_TASKS
        && head.clock <= CLOCK_END
        && record_fits(head.sleep)
        && sleep_fits(head.sleep, first)
        && waking_fits(head.waking, head.sleep)
}

// `place_fits` tells whether place i, after one of period `above` (0 where it is the first), keeps
// its rules: a task's entry where i is below n, else a spare place. The four come apart, since a
// caller has each of them from elsewhere.
pub fn place_fits(head: Head, i: u32, above: u32, e: Entry) -> bool
    ensures { result ≡ place_fits head i above e }
{
    if i < head.n {
        task_fits(head, i, above, e)
    } else {
        spare_fits(e)
    }
}

// A task's entry keeps its rules: its record is lawful and its period not below the one above it;
// no release is after the clock, and each is at a tick that the task may be released at; a job has
// 1 to C left and its release is the last one.
fn task_fits(head: Head, i: u32, above: u32, e: Entry) -> bool
    ensures { result ≡ task_fits head i above e }
{
    record_fits(e.task)
        && above <= e.task.period
        && last_fits(head, i, e.last)
        && job_fits(e.job, e.last, e.task.work)
}

fn last_fits(head: Head, i: u32, last: Option<u32>) -> bool
    ensures { result ≡ last_fits head i last }
{
    last.is_none_or(|a| a <= head.clock && release_time(head.sleep.period, i, a))
}

fn job_fits(job: Job, last: Option<u32>, work: u32) -> bool
    ensures { result ≡ job_fits work last job }
{
    match job {
        Job::Resting => true,
        Job::Working { release, left } => 1 <= left && left <= work && last == Some(release),
    }
}

fn spare_fits(e: Entry) -> bool
    ensures { result ≡ spare_fits e }
{
    e == Entry::default()
}

// `total_of` counts all the ticks of a tally, whatever its counts are.
fn total_of(tally: Tally) -> u64
    ensures { result ≡ total tally }
{
    u64::from(tally.run) + u64::from(tally.slot) + u64::from(tally.tail) + u64::from(tally.waking)
}

// `tally_fits` tells whether a tally's counts, any numbers, sum to the clock.
pub fn tally_fits(tally: Tally, clock: u32) -> bool
    ensures { result ≡ tally_fits tally clock }
{
    total_of(tally) == u64::from(clock)
}

// `may_release` tests for numbers 7 to 12, in a state that keeps its rules, from its head and the task's entry.
#[tactic(auto, unfolding(crate::specs::Asks::may_release, crate::specs::Asks::ask_task, crate::specs::Asks::ask_demand))]
pub fn may_release(head: Head, e: Entry, task: u32, demand: u32) -> Result<(), Refusal>
    ensures { result ≡ may_release head e task demand }
{
    if CLOCK_END <= head.clock {
        return Err(Refusal::ClockEnd);
    }
    if task < 1 || head.n < task {
        return Err(Refusal::NoTask);
    }
    if demand < 1 || e.task.work < demand {
        return Err(Refusal::Demand);
    }
    if !release_time(head.sleep.period, task - 1, head.clock) {
        return Err(Refusal::OffBoundary);
    }
    may_follow(e, head.clock)
}

// `may_follow` tests for numbers 11 and 12.
fn may_follow(e: Entry, clock: u32) -> Result<(), Refusal>
    ensures { result ≡ ask_spacing clock e }
{
    if e.job != Job::Resting {
        return Err(Refusal::Working);
    }
    if too_early(e.last, e.task.period, clock) {
        return Err(Refusal::Early);
    }
    Ok(())
}

fn too_early(last: Option<u32>, period: u32, clock: u32) -> bool
    ensures { result ≡ early last period clock }
{
    last.is_some_and(|a| u64::from(clock) < u64::from(a) + u64::from(period))
}

// `may_step` tests for numbers 6 and 7 of a step, from whether the state keeps its rules, the tally
// beside it and its clock.
pub fn may_step(fits: bool, tally: Tally, clock: u32) -> Result<(), Refusal>
    ensures { result ≡ may_step fits tally clock }
{
    if !fits || !tally_fits(tally, clock) {
        return Err(Refusal::Unfit);
    }
    if CLOCK_END <= clock {
        return Err(Refusal::ClockEnd);
    }
    Ok(())
}

// `since_boundary` is t mod H. With an H of 0 it is the clock itself.
fn since_boundary(head: Head) -> u32
    ensures { result ≡ since_boundary head }
{
    head.clock
        .checked_rem(head.sleep.period)
        .unwrap_or(head.clock)
}

// `in_slot` tells whether the clock stands in a sleep slot.
pub fn in_slot(head: Head) -> bool
    ensures { result ≡ in_slot head }
{
    since_boundary(head) < head.sleep.work
}

// `last_boundary` is the last boundary at or before the clock; it is 0 with an H of 0.
pub fn last_boundary(head: Head) -> u32
    ensures { result ≡ last_boundary head }
{
    head.clock - since_boundary(head)
}

// `wakes` tells whether a slot tick at the clock is one of the last V of its slot. Where V is above
// S, which no state that keeps its rules has, every one is: S − V is then 0, as in the definition.
fn wakes(head: Head) -> bool
    ensures { result ≡ wakes head }
{
    head.sleep.work.saturating_sub(head.waking) <= since_boundary(head)
}

// `Places` is what holds the entries of a node's tasks by place, from 0: the engine by value keeps
// them, the one on words reads them where they stand.
pub trait Places {
    ghost entry: { Self → ℕ → Entry };

    // The entry at place i. Past the last place the type that holds them says what it is; both
    // engines give a spare one.
    fn entry(&self, i: u32) -> Entry
        ensures { result ≡ entry self.now i };
}

// `next_tick` says what the next tick is: in the slot a slot tick, else a run of the first of the n
// tasks whose job had come by the last boundary, or a tail tick.
pub fn next_tick<P: Places>(head: Head, places: &P) -> Tick
    ensures { result ≡ next_tick head (P.entry places.now) }
{
    if in_slot(head) {
        return Tick::Slot;
    }
    match first_come(places, head.n, last_boundary(head)) {
        Some(i) => run_or_tail(head.n, i),
        None => Tick::Tail,
    }
}

// A tick outside the slot is a run of the task at place i where that is one of the n, else a tail tick.
pub fn run_or_tail(n: u32, i: u32) -> Tick
    ensures { result ≡ run_or_tail n i }
{
    if i < n { Tick::Run(i + 1) } else { Tick::Tail }
}

// `first_come` is the first of the n tasks whose job had come by a tick.
fn first_come<P: Places>(places: &P, n: u32, tick: u32) -> Option<u32>
    ensures { result ≡ found_in (first_come (P.entry places.now) n tick) n }
{
    (0..n).find(|&i| came_by(places.entry(i).job, tick))
}

// `count_of` says which count a tick raises.
pub fn count_of(head: Head, tick: Tick) -> Count
    ensures { result ≡ count_of head tick }
{
    match tick {
        Tick::Run(_) => Count::Runs,
        Tick::Slot if wakes(head) => Count::Wakings,
        Tick::Slot => Count::Slots,
        Tick::Tail => Count::Tails,
    }
}

// `came_by` tells whether a task works on a job that was released at or before a tick.
pub fn came_by(job: Job, tick: u32) -> bool
    ensures { result ≡ came tick job }
{
    matches!(job, Job::Working { release, .. } if release <= tick)
}

// `worked` is the entry with one unit of its work done.
pub fn worked(e: Entry) -> Entry
    ensures { result ≡ worked_of e }
{
    let job = match e.job {
        Job::Working { release, left } if 1 < left => Job::Working {
            release,
            left: left - 1,
        },
        _ => Job::Resting,
    };
    Entry { job, ..e }
}
