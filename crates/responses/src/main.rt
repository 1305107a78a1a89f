// The worst pattern runs for 2,000 ticks on most sets of RULES 15 and on three tasks that tell k
// times H from w: each task's figure and largest response are written. On a set that is refused
// with 5 the pattern is given to the tasks up to the failing one.
#![tactic(auto)]

ghost use Rattle.std.specs.Prelude.{◌≤◌};

use admission::admit;
use decisions::{Job, Tally, Tick};
use scheduler::{State, release, start, step_on};
use std::{array, io};
use table::{PLACES, RECORD_BYTES, Record, Refusal, Told, record_bytes};

fn main(rt: HostRuntime) -> io::Result<()> {
    show(
        &rt,
        "A: the house table",
        [
            record(10, 8, 20),
            record(11, 2, 20),
            record(12, 3, 50),
            record(13, 2, 100),
            record(14, 4, 200),
        ],
    )?;
    show(
        &rt,
        "D: the source's Table I",
        [
            record(0, 1, 5),
            record(1, 3, 10),
            record(2, 1, 15),
            record(3, 1, 40),
            record(4, 1, 300),
            record(5, 1, 500),
        ],
    )?;
    show(&rt, "G: 1 in 2", [record(0, 1, 2), record(1, 1, 2)])?;
    show(&rt, "G: 2 in 4", [record(0, 1, 2), record(1, 2, 4)])?;
    show(
        &rt,
        "H: 1 in 6",
        [record(0, 1, 4), record(1, 1, 4), record(2, 1, 6)],
    )?;
    show(
        &rt,
        "three tasks: 1 in 4, 1 in 7, 2 in 11",
        [
            record(0, 1, 4),
            record(1, 1, 4),
            record(2, 1, 7),
            record(3, 2, 11),
        ],
    )?;
    show(
        &rt,
        "E: the source's Figure 1",
        [
            record(0, 5, 10),
            record(1, 1, 10),
            record(2, 1, 15),
            record(3, 2, 26),
        ],
    )?;
    show(
        &rt,
        "F: the source's Figure 3",
        [
            record(0, 7, 10),
            record(1, 1, 10),
            record(2, 1, 15),
            record(3, 2, 26),
        ],
    )?;
    show(&rt, "G: 3 in 4", [record(0, 1, 2), record(1, 3, 4)])?;
    show(
        &rt,
        "H: 1 in 5",
        [record(0, 1, 4), record(1, 1, 4), record(2, 1, 5)],
    )
}

// A line is written for each task that follows the pattern: number, figure (0 for the failing one),
// largest response, and whether one was longer than its period. A table has at most 17 records.
fn show<const N: usize>(rt: &impl Print, name: &str, records: [Record; N]) -> io::Result<()>
    requires { N ≤ 17 }
{
    println!(rt; "{name}")?;
    let table = table_of(&records);
    let verdict = admit(table.as_flattened());
    let count = followers(verdict.answer);
    let state = start(table.as_flattened(), 0).state;
    let most = largest(state, count);
    for (((task, e), row), most) in (1..=count).zip(state.entries).zip(verdict.rows).zip(most) {
        let end = if e.task.period < most {
            "late"
        } else {
            "in time"
        };
        println!(rt; "{task} {} {most} {end}", row.figure)?;
    }
    Ok(())
}

// `record`, `table_of`, `due` and `given` stand in program vectors too, or nearly: programs can't name
// one another, and a library for so few lines would say more in its contracts than they do.
fn record(label: u32, work: u32, period: u32) -> Record {
    Record {
        label,
        work,
        period,
        reserved: 0,
    }
}

fn table_of<const N: usize>(records: &[Record; N]) -> [[u8; RECORD_BYTES]; N] {
    array::from_fn(|i| record_bytes(records[i]))
}

// The tasks that follow the pattern are all of an admitted set, and those up to the failing one
// under 5.
fn followers(answer: Result<u32, Refusal>) -> u32 {
    answer.unwrap_or_else(|refusal| Told::from(refusal).place)
}

// The result is the largest response of each task in 2,000 ticks.
fn largest(s: State, count: u32) -> [u32; PLACES] {
    let mut most = [0; PLACES];
    let mut state = s;
    let mut tally = Tally::default();
    for t in 0..2000 {
        let before = given(state, t, count);
        let moved = step_on(before, tally);
        if let Some((at, ticks)) = response(&before, moved.answer)
            && let Some(known) = most.get_mut(at)
        {
            *known = ticks.max(*known);
        }
        state = moved.state;
        tally = moved.tally;
    }
    most
}

// The response of the job that a tick finished stands beside its task's place. A finish is stamped
// with the clock after its tick.
fn response(before: &State, answer: Result<Tick, Refusal>) -> Option<(usize, u32)> {
    let Ok(Tick::Run(task)) = answer else {
        return None;
    };
    let at = (task as usize).checked_sub(1)?;
    let Job::Working { release, left: 1 } = before.entries.get(at)?.job else {
        return None;
    };
    let ticks = before.clock.checked_sub(release)?.checked_add(1)?;
    Some((at, ticks))
}

// The releases of the worst pattern that are due at t, of the first so many tasks, are made.
fn given(s: State, t: u32, count: u32) -> State {
    let tasks = (1..=count).zip(s.entries);
    tasks.fold(s, |state, (task, e)| {
        let from = if task == 1 { s.sleep.period } else { 1 };
        if due(t, from, e.task.period) {
            release(state, task, e.task.work).state
        } else {
            state
        }
    })
}

fn due(t: u32, from: u32, period: u32) -> bool {
    period != 0
        && t.checked_sub(from)
            .is_some_and(|past| past.is_multiple_of(period))
}
