// This is the scheduler for firmware: calls on numbers and slices, which crate node_c exports for C.
// State and tally lie in buffers of 32-bit words that the caller lends, and every call works where
// they stand. specs/Layout.antt is the layout of a buffer, specs/Calls.antt says what each call
// gives, and include/node.h says both for C.
#![tactic(auto)]

ghost use Rattle.std.specs.Prelude.{◌≡◌, true, ◌≤◌, ◌<◌, eqb, length};
ghost use Rattle.std.specs.List.{list_all};
ghost use Rattle.table.specs.Refusals.{told_of};
ghost use Rattle.table.specs.Sound.{places};
ghost use Rattle.decisions.specs.Fits.{clock_end, total};
ghost use Rattle.scheduler.specs.States.{head_of, entry_in};
ghost use Rattle.scheduler.specs.Releases.{released_state};
ghost use Rattle.decisions.specs.Ticks.{worked_of};
ghost use Rattle.scheduler.specs.Steps.{tick_of, after_tick, raised};
ghost use Rattle.node.specs.Words.{puts};
ghost use Rattle.node.specs.Layout.{state_size, place_start, head_words, state_words, entry_words, tally_words, verdict_words, state_in, tally_in, place_of, entry_from, kind_encoded, place_encoded, encoded};
ghost use Rattle.node.specs.Calls.{packed, told_answer, unfit_answer, after_unfit, tick_answer, admit_on, start_on, release_on, step_on, energy_on, words_fit, places_fit_in, spares_blank};

use admission::{Verdict, admit};
use decisions::{
    Count, Entry, Head, Job, Places, Powers, Tally, Tick, count_of, energy, head_fits, may_release,
    may_step, next_tick, place_fits, worked,
};
use scheduler::{State, start};
use table::{MOST_TASKS, PLACES, Record, Refusal, Told, no_window};

// These say how many words a state, a tally and a verdict have.
pub const STATE_WORDS: usize = 151;

pub const TALLY_WORDS: usize = 4;

pub const VERDICT_WORDS: usize = 48;

// These say how many words a state has before its first place, and how many a place has.
const HEAD_WORDS: usize = 7;

const PLACE_WORDS: usize = 9;

// These say where the clock stands in a state, and the counts in a tally.
const CLOCK_AT: usize = 5;

const RUN_AT: usize = 0;

const SLOT_AT: usize = 1;

const TAIL_AT: usize = 2;

const WAKINGS_AT: usize = 3;

// `node_admit` is the admission test. The verdict is written where the set is admitted or a task
// has no window.
pub fn node_admit(table: &[u8], verdict: &mut [u32]) -> u64
    ensures { (result ≡ (admit_on table.now verdict.old).answer)
        × (verdict.new ≡ (admit_on table.now verdict.old).verdict) }
{
    let v = admit(table);
    match v.answer {
        Ok(tasks) => {
            let Some(out) = verdict.as_mut_array::<VERDICT_WORDS>() else {
                return unfit();
            };
            put_verdict(out, &v);
            answer_of(0, tasks, 0)
        }
        Err(refusal) => {
            if no_window(refusal)
                && let Some(out) = verdict.as_mut_array::<VERDICT_WORDS>()
            {
                put_verdict(out, &v);
            }
            refused(refusal)
        }
    }
}

// `node_start` writes a fresh state of a table and a waking length, whole.
pub fn node_start(table: &[u8], waking: u32, state: &mut [u32]) -> u64
    ensures { (result ≡ (start_on (record { table = table.now; waking = waking }) state.old).answer)
        × (state.new ≡ (start_on (record { table = table.now; waking = waking }) state.old).state) }
{
    let started = start(table, waking);
    match started.answer {
        Ok(()) => {
            let Some(out) = state.as_mut_array::<STATE_WORDS>() else {
                return unfit();
            };
            put_state(out, &started.state);
            0
        }
        // A buffer of another length gets 6, which is given before a higher number.
        Err(refusal) => {
            if state.len() != STATE_WORDS && after_unfit(refusal) {
                return unfit();
            }
            refused(refusal)
        }
    }
}

// `node_release` is a release at the state's clock: the words of one place are written.
#[tactic(auto, using(crate::proofs::CallLaws::release_is, crate::proofs::CallLaws::not_fitting))]
pub fn node_release(state: &mut [u32], task: u32, demand: u32) -> u64
    ensures { (result ≡ (release_on state.old task demand).answer)
        × (state.new ≡ (release_on state.old task demand).state) }
{
    let Some(state) = state.as_mut_array::<STATE_WORDS>() else {
        return unfit();
    };
    let words = Words { words: state };
    if !words.fit() {
        return unfit();
    }
    // Number 0 reads the first place, and one of no place a spare one.
    let e = words.entry(task.saturating_sub(1));
    match may_release(words.head(), e, task, demand) {
        Err(refusal) => refused(refusal),
        Ok(()) => {
            take(state, task, demand);
            0
        }
    }
}

// `node_step` is one tick: the clock, one count of the tally and, in a run, the words of one place
// are written.
#[tactic(auto, using(crate::proofs::CallLaws::step_is, crate::proofs::CallLaws::step_short, crate::proofs::CallLaws::not_fitting))]
pub fn node_step(state: &mut [u32], tally: &mut [u32]) -> u64
    ensures { (result ≡ (step_on state.old tally.old).answer)
        × (state.new ≡ (step_on state.old tally.old).state)
        × (tally.new ≡ (step_on state.old tally.old).tally) }
{
    let Some(tally) = tally.as_mut_array::<TALLY_WORDS>() else {
        return unfit();
    };
    let Some(state) = state.as_mut_array::<STATE_WORDS>() else {
        return unfit();
    };
    let words = Words { words: state };
    let head = words.head();
    match may_step(words.fit(), tally_in(tally), head.clock) {
        Err(refusal) => refused(refusal),
        Ok(()) => {
            let tick = words.tick();
            move_on(state, tick);
            raise(tally, count_of(head, tick));
            tick_answer(tick)
        }
    }
}

// `node_energy` gives the energy of a tally.
#[tactic(auto, unfolding(crate::specs::Calls::energy_on))]
pub fn node_energy(tally: &[u32], run: u32, sleep: u32, waking: u32) -> u64
    ensures { result ≡ energy_on tally.now run sleep waking }
{
    let Some(tally) = tally.as_array::<TALLY_WORDS>() else {
        return unfit();
    };
    let powers = Powers { run, sleep, waking };
    match energy(tally_in(tally), powers) {
        Ok(nanojoules) => 256 * nanojoules,
        Err(refusal) => refused(refusal),
    }
}

// `unfit` is the answer to a buffer of another length, and to words that encode no state: number 6.
fn unfit() -> u64
    ensures { result ≡ unfit_answer }
{
    refused(Refusal::Unfit)
}

// `after_unfit` tells whether a refusal's number is above 6.
fn after_unfit(refusal: Refusal) -> bool
    ensures { result ≡ after_unfit refusal }
{
    Told::from(Refusal::Unfit).number < Told::from(refusal).number
}

// `refused` is a refusal's answer.
fn refused(refusal: Refusal) -> u64
    ensures { result ≡ told_answer (told_of refusal) }
{
    let told = Told::from(refusal);
    answer_of(told.number, told.place, told.rounds)
}

// `tick_answer` tells what a tick was: its kind, and the task that ran.
fn tick_answer(tick: Tick) -> u64
    ensures { result ≡ tick_answer tick }
{
    match tick {
        Tick::Run(task) => answer_of(0, 0, task),
        Tick::Slot => answer_of(0, 1, 0),
        Tick::Tail => answer_of(0, 2, 0),
    }
}

// An answer has the number in its low byte, and two parts above it: include/node.h has refusals and
// kinds of a tick as numbers.
fn answer_of(number: u32, a: u32, b: u32) -> u64
    ensures { result ≡ packed number a b }
{
    u64::from(number) + 256 * u64::from(a) + 65536 * u64::from(b)
}

// `Words` are the words of a state, as many as it has, and are read where they stand. Nothing
// compares or prints them.
#[derive(Clone, Copy)]
struct Words<'a> {
    words: &'a [u32; STATE_WORDS],
    ghost long: { length words.now ≡ state_size },
}

impl Places for Words<'_> {
    ghost entry = { λ state i. entry_in (state_in state.words.now) i };

    #[tactic(auto, using(crate::proofs::LayoutLaws::entry_at, crate::proofs::LayoutLaws::no_place))]
    fn entry(&self, i: u32) -> Entry {
        if i < MOST_TASKS {
            entry_of(self.place(i))
        } else {
            Entry::default()
        }
    }
}

impl<'a> Words<'a> {
    // The head is what stands before the places.
    fn head(&self) -> Head
        ensures { result ≡ head_of (state_in self.now.words.now) }
    {
        let [label, work, period, reserved, n, clock, waking, ..] = *self.words;
        Head {
            sleep: Record {
                label,
                work,
                period,
                reserved,
            },
            n,
            clock,
            waking,
        }
    }

    // Who reads or writes one place asks that there is one (`i < places`). A type for such a number
    // would be made at four places, each by the fact that is asked now.
    fn place(&self, i: u32) -> &'a [u32; PLACE_WORDS]
        requires { i < places }
        ensures { result.now ≡ place_of self.now.words.now i }
    {
        let at = HEAD_WORDS + PLACE_WORDS * i as usize;
        let words = self.words;
        let Some(place) = words[at..].first_chunk() else {
            unreachable!()
        };
        place
    }

    // The words fit where they encode a state that keeps its rules.
    #[tactic(auto, using(crate::proofs::CallLaws::fits_parts, crate::proofs::CallLaws::few_tasks))]
    fn fit(&self) -> bool
        ensures { result ≡ words_fit self.now.words.now }
    {
        let head = self.head();
        head_fits(head, self.entry(0).task) && self.tasks_fit(head) && self.spares_blank(head.n)
    }

    // The tasks' places fit where every one of them is encoded and keeps its rules.
    #[tactic(auto, unfolding(scheduler::specs::States::period_before, base::specs::Every::every))]
    fn tasks_fit(&self, head: Head) -> bool
        requires { head.n ≤ places }
        ensures { result ≡ places_fit_in self.now.words.now head head.n }
    {
        let mut above = 0;
        for i in 0..head.n {
            let place = self.place(i);
            if !encoded(place) {
                return false;
            }
            let e = entry_of(place);
            if !place_fits(head, i, above, e) {
                return false;
            }
            above = e.task.period;
        }
        true
    }

    // The spare places are blank, and so encoded, where every word from the first of them on is 0.
    fn spares_blank(&self, n: u32) -> bool
        requires { n ≤ places }
        ensures { result ≡ spares_blank self.now.words.now n }
    {
        for i in n..MOST_TASKS {
            if !blank(self.place(i)) {
                return false;
            }
        }
        true
    }

    // The next tick of a state that keeps its rules.
    fn tick(&self) -> Tick
        requires { words_fit self.now.words.now ≡ true }
        ensures { result ≡ tick_of (state_in self.now.words.now) }
    {
        next_tick(self.head(), self)
    }
}

// A place encodes an entry where its kinds are 0 or 1, and there are zeros where a kind has no more.
fn encoded(place: &[u32; PLACE_WORDS]) -> bool
    ensures { result ≡ place_encoded place.now 0 }
{
    let [_, _, _, _, job, release, left, last, tick] = *place;
    kind_encoded(job, release, left) && kind_encoded(last, tick, 0)
}

// `entry_of` reads the entry of a place.
fn entry_of(place: &[u32; PLACE_WORDS]) -> Entry
    ensures { result ≡ entry_from place.now 0 }
{
    let [
        label,
        work,
        period,
        reserved,
        job,
        release,
        left,
        last,
        tick,
    ] = *place;
    Entry {
        task: Record {
            label,
            work,
            period,
            reserved,
        },
        job: if job == 0 {
            Job::Resting
        } else {
            Job::Working { release, left }
        },
        last: if last == 0 { None } else { Some(tick) },
    }
}

// A place is blank where each of its words is 0. Bit by bit in one: with `all`, which stops at a word,
// a step misses its aim in docs/PERFORMANCE.md.
fn blank(place: &[u32; PLACE_WORDS]) -> bool
    ensures { result ≡ list_all (λ w. eqb w 0) place.now }
{
    place.iter().fold(0, |any, word| any | word) == 0
}

// `kind_encoded` tells whether a kind and what it carries are written as they should be: include/node.h
// has kinds as numbers.
fn kind_encoded(kind: u32, a: u32, b: u32) -> bool
    ensures { result ≡ kind_encoded kind a b }
{
    // The three words are 0 where their sum is; a branch for each is slower.
    kind == 1 || u64::from(kind) + u64::from(a) + u64::from(b) == 0
}

// No `From`: neither its type nor the words are this crate's.
fn tally_in(tally: &[u32; TALLY_WORDS]) -> Tally
    ensures { result ≡ tally_in tally.now }
{
    let [run, slot, tail, waking] = *tally;
    Tally {
        run,
        slot,
        tail,
        waking,
    }
}

// `take` leaves the state with a task at work on a job released now.
#[tactic(auto, using(crate::proofs::LayoutLaws::release_put))]
fn take(state: &mut [u32; STATE_WORDS], task: u32, demand: u32)
    requires { (encoded state.old ≡ true) × (1 ≤ task) × (task ≤ places) }
    ensures { state.new ≡ state_words (released_state (state_in state.old) task demand) }
{
    let i = task - 1;
    let clock = state[CLOCK_AT];
    let e = Entry {
        job: Job::Working {
            release: clock,
            left: demand,
        },
        last: Some(clock),
        ..Words { words: state }.entry(i)
    };
    put_entry(state, i, e);
}

// `move_on` leaves the state one tick on: the clock, and the work of the task that ran.
#[tactic(auto, using(crate::proofs::LayoutLaws::tick_put))]
fn move_on(state: &mut [u32; STATE_WORDS], tick: Tick)
    requires { (words_fit state.old ≡ true) × ((state_in state.old).clock < clock_end) × (tick ≡ tick_of (state_in state.old)) }
    ensures { state.new ≡ state_words (after_tick (state_in state.old) tick) }
{
    state[CLOCK_AT] += 1;
    if let Tick::Run(task) = tick {
        work(state, task - 1);
    }
}

// `work` does one unit of work at place i.
fn work(state: &mut [u32; STATE_WORDS], i: u32)
    requires { i < places }
    ensures { state.new ≡ puts state.old (place_start i) (entry_words (worked_of (entry_in (state_in state.old) i))) }
{
    let e = worked(Words { words: state }.entry(i));
    put_entry(state, i, e);
}

// `raise` leaves the tally with a count one up. By number, since the borrow checker does not cover
// an array pattern behind a `&mut`.
fn raise(tally: &mut [u32; TALLY_WORDS], count: Count)
    requires { total (tally_in tally.old) < clock_end }
    ensures { tally.new ≡ tally_words (raised (tally_in tally.old) count) }
{
    let at = match count {
        Count::Runs => RUN_AT,
        Count::Slots => SLOT_AT,
        Count::Tails => TAIL_AT,
        Count::Wakings => WAKINGS_AT,
    };
    tally[at] += 1;
}

// `put_state` writes a whole state.
#[tactic(auto, using(crate::proofs::LayoutLaws::place_more_put, crate::proofs::LayoutLaws::state_put), unfolding(crate::specs::Layout::places_words))]
fn put_state(out: &mut [u32; STATE_WORDS], s: &State)
    ensures { out.new ≡ state_words s.now }
{
    out[..HEAD_WORDS].copy_from_slice(&head_words(s));
    for (i, &e) in s.entries.iter().enumerate() {
        put_entry(out, i as u32, e);
    }
}

// `head_words` is what stands before the places of a state. No `From` here or for an entry: neither
// end is this crate's type.
fn head_words(s: &State) -> [u32; HEAD_WORDS]
    ensures { result ≡ head_words s.now }
{
    let sleep = s.sleep;
    [
        sleep.label,
        sleep.work,
        sleep.period,
        sleep.reserved,
        s.n,
        s.clock,
        s.waking,
    ]
}

// `put_entry` writes the words of place i.
#[tactic(auto, using(crate::proofs::LayoutLaws::length_entry))]
fn put_entry(out: &mut [u32; STATE_WORDS], i: u32, e: Entry)
    requires { i < places }
    ensures { out.new ≡ puts out.old (place_start i) (entry_words e) }
{
    let at = HEAD_WORDS + PLACE_WORDS * i as usize;
    out[at..at + PLACE_WORDS].copy_from_slice(&entry_words(e));
}

// `entry_words` is an entry as the words of a place.
fn entry_words(e: Entry) -> [u32; PLACE_WORDS]
    ensures { result ≡ entry_words e }
{
    let (job, release, left) = match e.job {
        Job::Resting => (0, 0, 0),
        Job::Working { release, left } => (1, release, left),
    };
    let (last, tick) = match e.last {
        None => (0, 0),
        Some(tick) => (1, tick),
    };
    let task = e.task;
    [
        task.label,
        task.work,
        task.period,
        task.reserved,
        job,
        release,
        left,
        last,
        tick,
    ]
}

// `put_verdict` writes a whole verdict.
fn put_verdict(out: &mut [u32; VERDICT_WORDS], v: &Verdict)
    ensures { out.new ≡ verdict_words v.now }
{
    for (i, row) in v.rows.iter().enumerate() {
        out[i] = row.window;
        out[PLACES + i] = row.figure;
        out[2 * PLACES + i] = row.rounds;
    }
}
