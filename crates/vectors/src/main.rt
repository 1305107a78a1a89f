// The schedule is run and compared: case J of RULES 15 tick by tick, F's run, every refusal 6 to 14
// at small inputs with what came back, and a state for every rule of RULES 4.
#![tactic(auto)]

ghost use Rattle.std.specs.Prelude.{◌≡◌, ◌≤◌};
ghost use Rattle.scheduler.specs.Steps.{step_of};

use decisions::{Entry, Job, Powers, Tally, Tick, energy, nanojoules};
use scheduler::{Moved, State, release, start, step};
use std::{array, fmt, io};
use table::{RECORD_BYTES, Record, Refusal, Told, record_bytes};

// Nothing compares the types of this program, and those that are printed have Display.

// A pattern releases task 1 at tick `first` and every period after, the others at `others`.
#[derive(Clone, Copy)]
struct Pattern {
    first: u32,
    others: u32,
}

// The house table's H is 20.
const WORST: Pattern = Pattern {
    first: 20,
    others: 1,
};

const AT_ONCE: Pattern = Pattern {
    first: 0,
    others: 0,
};

// A run has come to a state and a tally.
#[derive(Clone, Copy)]
struct Ran {
    state: State,
    tally: Tally,
}

// A reply is the answer of a start, a release or an energy reading.
#[derive(Clone, Copy)]
struct Reply(Result<(), Refusal>);

impl fmt::Display for Reply {
    fn fmt<W: fmt::Write>(&self, f: &mut fmt::Formatter<W>) -> fmt::Result {
        match self.0.map_err(Told::from) {
            Ok(()) => write!(f, "accepted"),
            Err(told) => write!(f, "refused {} {}", told.number, told.place),
        }
    }
}

// An outcome is a step's answer: what its tick was, or the number of the refusal.
#[derive(Clone, Copy)]
struct Outcome(Result<Tick, Refusal>);

impl fmt::Display for Outcome {
    fn fmt<W: fmt::Write>(&self, f: &mut fmt::Formatter<W>) -> fmt::Result {
        match self.0.map_err(Told::from) {
            Ok(Tick::Run(task)) => write!(f, "run {task}"),
            Ok(Tick::Slot) => write!(f, "slot"),
            Ok(Tick::Tail) => write!(f, "tail"),
            Err(told) => write!(f, "refused {}", told.number),
        }
    }
}

// A sign is a step's answer: z for slot, a dot for tail, a task's number for its run.
#[derive(Clone, Copy)]
struct Sign(Result<Tick, Refusal>);

impl fmt::Display for Sign {
    fn fmt<W: fmt::Write>(&self, f: &mut fmt::Formatter<W>) -> fmt::Result {
        match self.0 {
            Ok(Tick::Run(task)) => write!(f, "{task}"),
            Ok(Tick::Slot) => write!(f, "z"),
            Ok(Tick::Tail) => write!(f, "."),
            Err(_) => write!(f, "!"),
        }
    }
}

fn main(rt: HostRuntime) -> io::Result<()> {
    starts(&rt)?;
    case_j(&rt)?;
    case_f(&rt)?;
    releases(&rt)?;
    ends(&rt)?;
    tables(&rt)?;
    entries(&rt)?;
    spares(&rt)?;
    wakings(&rt)?;
    tallies(&rt)?;
    energies(&rt)
}

// Starts are shown here with V up to S and above it, where the refusals of the table come first, and
// what a refused one's state gets.
fn starts(rt: &impl Print) -> io::Result<()> {
    println!(rt; "starts")?;
    let table = table_of(&house());
    let house = table.as_flattened();
    began(rt, "V = 0", house, 0)?;
    began(rt, "V = S", house, 8)?;
    began(rt, "V = S + 1", house, 9)?;
    began(rt, "V = 4,294,967,295", house, 4294967295)?;
    if let [short @ .., _] = house {
        began(rt, "79 bytes", short, 0)?;
        began(rt, "79 bytes, V = S + 1", short, 9)?;
    }
    began_edited(
        rt,
        "C = 0 in task 4, V = S + 1",
        9,
        |records| records[4].work = 0,
    )?;
    began_edited(
        rt,
        "period of task 3 below task 2's, V = S + 1",
        9,
        |records| records[3].period = 49,
    )?;
    began_edited(rt, "S = H, V = S + 1", 21, |records| records[0].work = 20)?;
    began_edited(rt, "period 1 no multiple of H, V = S + 1", 9, |records| {
        records[1].period = 30
    })?;
    println!(rt; "a refused start's state")?;
    let none = start(house, 9);
    stepped(rt, none.state, [0, 0, 0, 0])?;
    asked(rt, none.state, 2, 1)
}

// The house table is edited before its start.
fn began_edited<F: FnOnce(&mut [Record; 5])>(
    rt: &impl Print,
    name: &str,
    waking: u32,
    edit: F,
) -> io::Result<()>
    requires { F.IsAlwaysCallable edit }
{
    let mut records = house();
    edit(&mut records);
    began(rt, name, table_of(&records).as_flattened(), waking)
}

// A start writes its answer and its state.
fn began(rt: &impl Print, name: &str, table: &[u8], waking: u32) -> io::Result<()> {
    let begun = start(table, waking);
    let s = begun.state;
    println!(rt; "{name}: {}", Reply(begun.answer))?;
    println!(rt;
        "n {} clock {} V {} sum {}",
        s.n,
        s.clock,
        s.waking,
        sum(&s)
    )
}

// The tables are the house table and the source's Figure 3 set, as in tables/.
fn house() -> [Record; 5] {
    [
        record(10, 8, 20),
        record(11, 2, 20),
        record(12, 3, 50),
        record(13, 2, 100),
        record(14, 4, 200),
    ]
}

fn figure_3() -> [Record; 4] {
    [
        record(0, 7, 10),
        record(1, 1, 10),
        record(2, 1, 15),
        record(3, 2, 26),
    ]
}

fn record(label: u32, work: u32, period: u32) -> Record {
    Record {
        label,
        work,
        period,
        reserved: 0,
    }
}

fn table_of<const N: usize>(records: &[Record; N]) -> [[u8; RECORD_BYTES]; N] {
    array::from_fn(|i| record_bytes(records[i]))
}

fn words_of(r: Record) -> [u32; 4] {
    [r.label, r.work, r.period, r.reserved]
}

// Case J runs the worst pattern on the house table for 40 ticks, with its tally and its energy. V
// takes ticks from one count to another, and no tick changes.
fn case_j(rt: &impl Print) -> io::Result<()> {
    println!(rt; "J")?;
    let ran = run_of(
        rt,
        house(),
        0,
        40,
        WORST,
        |t, _, moved| println!(rt; "{t} {} ", Outcome(moved.answer)),
    )?;
    booked(rt, ran.tally)?;
    for waking in [2, 8] {
        println!(rt; "J, V = {waking}")?;
        let ran = run_of(
            rt,
            house(),
            waking,
            40,
            WORST,
            |_, _, moved| print!(rt; "{}", Sign(moved.answer)),
        )?;
        println!(rt)?;
        booked(rt, ran.tally)?;
    }
    Ok(())
}

fn booked(rt: &impl Print, tally: Tally) -> io::Result<()> {
    counted(rt, tally)?;
    consumed(rt, tally, [23000, 16, 9000])
}

// F's set runs with every task released from tick 0 at its period: what is refused and what
// finishes is written.
fn case_f(rt: &impl Print) -> io::Result<()> {
    println!(rt; "F")?;
    let ran = run_of(
        rt,
        figure_3(),
        0,
        90,
        AT_ONCE,
        |_, before, moved| finished(rt, before, moved),
    )?;
    counted(rt, ran.tally)
}

// A task that the tick left without work finished its job.
fn finished(rt: &impl Print, before: &State, moved: &Moved) -> io::Result<()> {
    let after = &moved.state;
    if let Ok(Tick::Run(task)) = moved.answer
        && let Some(at) = (task as usize).checked_sub(1)
        && let (Some(e), Some(f)) = (before.entries.get(at), after.entries.get(at))
        && let (Job::Working { release, left: _ }, Job::Resting) = (e.job, f.job)
    {
        println!(rt;
            "task {task} released at {release} finishes at {}",
            after.clock
        )?;
    }
    Ok(())
}

// Refusals 8 to 12 are tried here, each where it alone applies and with its neighbours, and what is
// accepted beside them; the lowest number is given where several apply.
fn releases(rt: &impl Print) -> io::Result<()> {
    println!(rt; "releases at 30: task 1 rests, 2 to 4 work")?;
    let s = house_at(rt, 30)?;
    for (task, demand) in [
        (0, 1),
        (5, 1),
        (4294967295, 1),
        (0, 0),
        (2, 0),
        (2, 4),
        (2, 4294967295),
        (1, 3),
        (1, 1),
        (2, 1),
        (4, 4),
    ] {
        asked(rt, s, task, demand)?;
    }
    println!(rt; "releases at 51: task 1 rests since 20, 2 works since 1")?;
    let s = State { clock: 51, ..s };
    asked(rt, s, 1, 2)?;
    asked(rt, s, 2, 3)?;
    println!(rt; "releases at 40: task 1 came now, the others rest")?;
    let s = house_at(rt, 40)?;
    asked(rt, s, 1, 2)?;
    asked(rt, s, 2, 3)?;
    asked(rt, s, 1, 0)?;
    println!(rt; "releases at 50 and 51: task 2 came at 1, its period is 50")?;
    asked(rt, State { clock: 50, ..s }, 2, 3)?;
    let s = State { clock: 51, ..s };
    asked(rt, s, 2, 3)?;
    asked(rt, s, 2, 4)?;
    asked(rt, s, 2, 0)?;
    asked(rt, s, 1, 2)?;
    asked(rt, s, 4, 4)
}

// The last clock is tried here, also in a state that breaks a rule.
fn ends(rt: &impl Print) -> io::Result<()> {
    println!(rt; "the clock's end")?;
    let s = start(table_of(&house()).as_flattened(), 0).state;
    let last = State {
        clock: 999999999,
        ..s
    };
    let over = State {
        clock: 1000000000,
        ..s
    };
    let past = State {
        clock: 1000000001,
        ..s
    };
    let broken = State {
        sleep: Record { work: 0, ..s.sleep },
        ..over
    };
    stepped(rt, last, [0, 0, 999999999, 0])?;
    stepped(rt, over, [0, 0, 1000000000, 0])?;
    stepped(rt, over, [0, 0, 999999999, 0])?;
    stepped(rt, past, [0, 0, 1000000001, 0])?;
    stepped(rt, broken, [0, 0, 1000000000, 0])?;
    asked(rt, last, 2, 3)?;
    asked(rt, over, 2, 3)?;
    asked(rt, over, 0, 0)?;
    asked(rt, over, 0, 1)?;
    asked(rt, past, 2, 3)?;
    asked(rt, broken, 2, 3)
}

// States that break the table rules are tried here: each rule alone, but for H above 60,000, which
// no period of task 1 within 60,000 is a multiple of. Beside them stand states at a rule's edge.
fn tables(rt: &impl Print) -> io::Result<()> {
    let s = house_at(rt, 30)?;
    let z = s.sleep;
    let slept = |sleep| State { sleep, ..s };
    let table = table_of(&house());
    let house = table.as_flattened();
    let empty = start(&house[..house.len().saturating_sub(1)], 0).state;
    tried(rt, "as it is", s)?;
    tried(
        rt,
        "n = 0",
        State {
            clock: 30,
            sleep: z,
            ..empty
        },
    )?;
    tried(rt, "n = 0, tasks in spare places", State { n: 0, ..s })?;
    tried(rt, "n = 3, a task in a spare place", State { n: 3, ..s })?;
    tried(rt, "n = 5, a spare place for a task", State { n: 5, ..s })?;
    tried(rt, "n = 16", State { n: 16, ..filled(s) })?;
    tried(rt, "n = 17", State { n: 17, ..filled(s) })?;
    tried(rt, "S = 0", slept(Record { work: 0, ..z }))?;
    tried(
        rt,
        "S = 0, H = 0",
        slept(Record {
            work: 0,
            period: 0,
            ..z
        }),
    )?;
    tried(rt, "S above H", slept(Record { work: 21, ..z }))?;
    tried(rt, "S = H", slept(Record { work: 20, ..z }))?;
    tried(rt, "S = H - 1", slept(Record { work: 19, ..z }))?;
    tried(rt, "H = 60,001", slept(Record { period: 60001, ..z }))?;
    tried(rt, "sleep reserved 1", slept(Record { reserved: 1, ..z }))?;
    tried(
        rt,
        "another label in the sleep record",
        slept(Record { label: 99, ..z }),
    )?;
    let short = slept(Record {
        work: 2,
        period: 7,
        ..z
    });
    tried(
        rt,
        "H = 7: period 1 no multiple",
        edited(short, 0, |e| e.last = None),
    )?;
    tried(
        rt,
        "H = 10: period 1 a multiple",
        slept(Record { period: 10, ..z }),
    )?;
    tried(
        rt,
        "C = 0 in task 4",
        edited(s, 3, |e| {
            e.task.work = 0;
            e.job = Job::Resting;
        }),
    )?;
    tried(rt, "C = T in task 4", edited(s, 3, |e| e.task.work = 200))?;
    tried(
        rt,
        "C above T in task 4",
        edited(s, 3, |e| e.task.work = 201),
    )?;
    tried(
        rt,
        "T = 60,001 in task 4",
        edited(s, 3, |e| e.task.period = 60001),
    )?;
    tried(
        rt,
        "T = 60,000 in task 4",
        edited(s, 3, |e| e.task.period = 60000),
    )?;
    tried(
        rt,
        "reserved 1 in task 4",
        edited(s, 3, |e| e.task.reserved = 1),
    )?;
    tried(
        rt,
        "period of task 4 below task 3's",
        edited(s, 3, |e| e.task.period = 99),
    )?;
    tried(
        rt,
        "period of task 4 equal to task 3's",
        edited(s, 3, |e| e.task.period = 100),
    )
}

// States that break the rules of jobs and last releases are tried here. Task 1 stands at place 0.
fn entries(rt: &impl Print) -> io::Result<()> {
    let s = house_at(rt, 30)?;
    let rests = |i, last| {
        edited(s, i, |e| {
            e.job = Job::Resting;
            e.last = last;
        })
    };
    let works = |i, release, left, last| {
        edited(s, i, |e| {
            e.job = Job::Working { release, left };
            e.last = last;
        })
    };
    tried(
        rt,
        "task 1 last released after the clock",
        rests(0, Some(40)),
    )?;
    tried(
        rt,
        "task 1 last released off a boundary",
        rests(0, Some(21)),
    )?;
    tried(rt, "task 1 last released at 0", rests(0, Some(0)))?;
    tried(
        rt,
        "task 1 at work since off a boundary",
        works(0, 21, 1, Some(21)),
    )?;
    tried(
        rt,
        "task 1 at work since a boundary",
        works(0, 20, 1, Some(20)),
    )?;
    tried(
        rt,
        "task 2 at work since after the clock",
        works(1, 31, 1, Some(31)),
    )?;
    tried(rt, "task 2 at work since now", works(1, 30, 1, Some(30)))?;
    tried(rt, "task 2 with nothing left", works(1, 1, 0, Some(1)))?;
    tried(rt, "task 2 with C left", works(1, 1, 3, Some(1)))?;
    tried(rt, "task 2 with C + 1 left", works(1, 1, 4, Some(1)))?;
    tried(
        rt,
        "task 2 released at 1, last release 2",
        works(1, 1, 2, Some(2)),
    )?;
    tried(
        rt,
        "task 2 at work and never released",
        works(1, 1, 2, None),
    )?;
    tried(
        rt,
        "task 4 rests, last released after the clock",
        rests(3, Some(31)),
    )?;
    tried(rt, "task 4 rests and was never released", rests(3, None))
}

// Spare places that are not zero, at rest and never released are tried here.
fn spares(rt: &impl Print) -> io::Result<()> {
    let s = house_at(rt, 30)?;
    tried(
        rt,
        "a spare place with a label",
        edited(s, 15, |e| e.task.label = 1),
    )?;
    tried(
        rt,
        "a spare place with work",
        edited(s, 4, |e| e.task.work = 1),
    )?;
    tried(
        rt,
        "a spare place with a period",
        edited(s, 4, |e| e.task.period = 1),
    )?;
    tried(
        rt,
        "a spare place with a reserved field",
        edited(s, 4, |e| e.task.reserved = 1),
    )?;
    tried(
        rt,
        "a spare place released at 0",
        edited(s, 4, |e| e.last = Some(0)),
    )?;
    tried(
        rt,
        "a spare place at work",
        edited(s, 15, |e| {
            e.job = Job::Working {
                release: 0,
                left: 1,
            }
        }),
    )?;
    tried(rt, "spare places as they should be", s)
}

// States with a V up to S and above it are tried here, and which ticks raise the waking count: with
// V = 2, S = 8 and H = 20 the slot ticks with t mod H = 6 and 7.
fn wakings(rt: &impl Print) -> io::Result<()> {
    let s = house_at(rt, 30)?;
    tried(rt, "V = S", State { waking: 8, ..s })?;
    tried(rt, "V = S + 1", State { waking: 9, ..s })?;
    tried(
        rt,
        "V = 4,294,967,295",
        State {
            waking: 4294967295,
            ..s
        },
    )?;
    println!(rt; "V = 2, at 25 to 28")?;
    let s = State {
        waking: 2,
        ..house_at(rt, 20)?
    };
    stepped(rt, State { clock: 25, ..s }, [0, 11, 12, 2])?;
    stepped(rt, State { clock: 26, ..s }, [0, 12, 12, 2])?;
    stepped(rt, State { clock: 27, ..s }, [0, 12, 12, 3])?;
    stepped(rt, State { clock: 28, ..s }, [0, 12, 12, 4])
}

// Tallies that do not sum to the clock are tried here: each count off by one, and sums that pass 32
// bits, the first three of which leave 30 there.
fn tallies(rt: &impl Print) -> io::Result<()> {
    println!(rt; "V = 2, tallies at 30")?;
    let s = State {
        waking: 2,
        ..house_at(rt, 30)?
    };
    for counts in [
        [2, 12, 12, 4],
        [3, 12, 12, 4],
        [2, 11, 12, 4],
        [2, 12, 13, 4],
        [2, 12, 12, 3],
        [4294967295, 15, 12, 4],
        [2, 12, 17, 4294967295],
        [4294967295, 4294967295, 4294967295, 33],
        [4294967295, 4294967295, 4294967295, 4294967295],
    ] {
        stepped(rt, s, counts)?;
    }
    Ok(())
}

// Refusals 6 and 13 of an energy reading are tried here: a tally's counts stand beside the powers of
// a run, of sleep and of waking.
fn energies(rt: &impl Print) -> io::Result<()> {
    println!(rt; "energies")?;
    for (counts, powers) in [
        ([11, 12, 13, 4], [23000, 16, 9000]),
        ([11, 12, 13, 4], [1000000, 1000000, 1000000]),
        ([11, 12, 13, 4], [0, 0, 1000000]),
        ([11, 12, 13, 4], [1000001, 16, 9000]),
        ([11, 12, 13, 4], [23000, 1000001, 9000]),
        ([11, 12, 13, 4], [23000, 16, 1000001]),
        ([1000000000, 0, 0, 0], [1000000, 1000000, 1000000]),
        ([1000000000, 0, 0, 0], [1000000, 0, 0]),
        ([0, 1000000000, 0, 0], [0, 1000000, 0]),
        ([0, 0, 1000000000, 0], [0, 1000000, 0]),
        ([0, 0, 0, 1000000000], [0, 0, 1000000]),
        (
            [200000000, 300000000, 400000000, 100000000],
            [999999, 1000000, 999998],
        ),
        ([1000000000, 0, 1, 0], [1, 1, 1]),
        ([1000000000, 0, 0, 1], [1, 1, 1]),
        ([1000000000, 0, 1, 0], [1000001, 1, 1]),
        ([0, 0, 0, 1000000001], [1, 1, 1000001]),
        ([4294967295, 1, 0, 0], [1, 1, 1]),
        ([0, 0, 1, 4294967295], [1, 1, 1]),
        ([4294967295, 4294967295, 4294967295, 4294967295], [1, 1, 1]),
        ([0, 0, 0, 0], [1000000, 1000000, 1000000]),
        ([0, 0, 0, 0], [0, 0, 1000001]),
    ] {
        consumed(rt, tally_of(counts), powers)?;
    }
    Ok(())
}

// The state is that of the house table under the worst pattern, before the step at clock t.
fn house_at(rt: &impl Print, t: u32) -> io::Result<State> {
    let ran = run_of(rt, house(), 0, t, WORST, |_, _, _| Ok(()))?;
    given(rt, ran.state, t, WORST)
}

// A set runs from its start with V up to clock `end`, and every step is noted: its tick, the state
// before it, and what it gave.
fn run_of<const N: usize, F: Fn(u32, &State, &Moved) -> io::Result<()>>(
    rt: &impl Print,
    records: [Record; N],
    waking: u32,
    end: u32,
    pattern: Pattern,
    note: F,
) -> io::Result<Ran>
    requires few { N ≤ 17 }
    requires callable { F.IsAlwaysCallable note }
{
    let mut ran = Ran {
        state: start(table_of(&records).as_flattened(), waking).state,
        tally: Tally::default(),
    };
    for t in 0..end {
        let state = given(rt, ran.state, t, pattern)?;
        let moved = step_lent(state, ran.tally);
        note(t, &state, &moved)?;
        ran = Ran {
            state: moved.state,
            tally: moved.tally,
        };
    }
    Ok(ran)
}

// Every step of this program goes through here: it is `step` itself, to which the tally is lent.
fn step_lent(state: State, mut tally: Tally) -> Moved
    ensures { result ≡ step_of state tally }
{
    let s = step(state, &mut tally);
    Moved {
        answer: s.answer,
        tally,
        state: s.state,
    }
}

// The state has every task released that is due at t, in table order and with full demand. What is
// refused is written.
fn given(rt: &impl Print, s: State, t: u32, pattern: Pattern) -> io::Result<State> {
    let mut state = s;
    for (task, e) in (1..=s.n).zip(s.entries) {
        let from = if task == 1 {
            pattern.first
        } else {
            pattern.others
        };
        if due(t, from, e.task.period) {
            let r = release(state, task, e.task.work);
            if r.answer.is_err() {
                println!(rt; "at {t} task {task} {}", Reply(r.answer))?;
            }
            state = r.state;
        }
    }
    Ok(state)
}

fn due(t: u32, from: u32, period: u32) -> bool {
    period != 0
        && t.checked_sub(from)
            .is_some_and(|past| past.is_multiple_of(period))
}

// A step and a release on a state write the numbers given, and whether anything changed.
fn tried(rt: &impl Print, name: &str, s: State) -> io::Result<()> {
    let moved = step_lent(s, tally_of([2, 16, 12, 0]));
    print!(rt;
        "{name}: {} {} ",
        Outcome(moved.answer),
        change(&s, &moved.state)
    )?;
    asked(rt, s, 2, 1)
}

// A release writes the number given, and whether anything changed.
fn asked(rt: &impl Print, s: State, task: u32, demand: u32) -> io::Result<()> {
    let r = release(s, task, demand);
    println!(rt;
        "release {task} {demand} {} {}",
        change(&s, &r.state),
        Reply(r.answer)
    )
}

// A step with a tally writes the answer, whether the state changed, and the tally after it.
fn stepped(rt: &impl Print, s: State, counts: [u32; 4]) -> io::Result<()> {
    let moved = step_lent(s, tally_of(counts));
    println!(rt;
        "step {} {} ",
        change(&s, &moved.state),
        Outcome(moved.answer)
    )?;
    counted(rt, moved.tally)
}

fn counted(rt: &impl Print, tally: Tally) -> io::Result<()> {
    println!(rt;
        "tally {} {} {} {}",
        tally.run, tally.slot, tally.tail, tally.waking
    )
}

fn consumed(rt: &impl Print, tally: Tally, [run, sleep, waking]: [u32; 3]) -> io::Result<()> {
    let e = energy(tally, Powers { run, sleep, waking });
    println!(rt; "energy {} {}", nanojoules(e), Reply(e.map(|_| ())))
}

// The text says whether two states differ in anything.
fn change(a: &State, b: &State) -> &'static str {
    if a == b {
        "state unchanged"
    } else {
        "state changed"
    }
}

// The sum is over every field of a state, each at a weight of its own.
fn sum(s: &State) -> u64 {
    let head = mixed(mixed(17, [s.n, s.clock, s.waking]), words_of(s.sleep));
    s.entries.iter().fold(head, entered)
}

fn entered(x: u64, e: &Entry) -> u64 {
    let x = mixed(x, words_of(e.task));
    let x = match e.job {
        Job::Resting => mixed(x, [0]),
        Job::Working { release, left } => mixed(x, [1, release, left]),
    };
    match e.last {
        None => mixed(x, [0]),
        Some(tick) => mixed(x, [1, tick]),
    }
}

fn mixed<const N: usize>(x: u64, words: [u32; N]) -> u64 {
    words.iter().fold(x, |x, word| {
        (x % 1000000007 * 65537 + u64::from(*word) + 1) % 1000000007
    })
}

// The state has the entry at place i edited.
fn edited<F: FnOnce(&mut Entry)>(mut s: State, i: usize, edit: F) -> State
    requires { F.IsAlwaysCallable edit }
{
    if let Some(e) = s.entries.get_mut(i) {
        edit(e);
    }
    s
}

// The state has a task at each place after the fourth.
fn filled(mut s: State) -> State {
    for e in &mut s.entries[4..] {
        e.task = record(15, 1, 200);
    }
    s
}

fn tally_of([run, slot, tail, waking]: [u32; 4]) -> Tally {
    Tally {
        run,
        slot,
        tail,
        waking,
    }
}
