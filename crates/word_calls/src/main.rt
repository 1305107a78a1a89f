// The calls on words are run and compared: verdicts, a start, case J with a stop at tick 30, every
// refusal, and the words that stand in the buffers after each.
#![tactic(auto)]

ghost use Rattle.std.specs.Prelude.{◌<◌};

use node::{node_admit, node_energy, node_release, node_start, node_step};
use std::ops::Range;
use std::{io, mem};
use table::{RECORD_BYTES, Record, record_bytes};

// The tables are the house table and the source's Figure 1 set, as in tables/.
fn house() -> [[u8; RECORD_BYTES]; 5] {
    [
        bytes(10, 8, 20),
        bytes(11, 2, 20),
        bytes(12, 3, 50),
        bytes(13, 2, 100),
        bytes(14, 4, 200),
    ]
}

fn figure_1() -> [[u8; RECORD_BYTES]; 4] {
    [
        bytes(0, 5, 10),
        bytes(1, 1, 10),
        bytes(2, 1, 15),
        bytes(3, 2, 26),
    ]
}

fn bytes(label: u32, work: u32, period: u32) -> [u8; RECORD_BYTES] {
    record_bytes(Record {
        label,
        work,
        period,
        reserved: 0,
    })
}

// These words are all that a stop has to save. Nothing compares or prints them.
#[derive(Clone, Copy)]
struct Saved {
    state: [u32; 151],
    tally: [u32; 4],
}

fn main(rt: HostRuntime) -> io::Result<()> {
    let table = house();
    let house = table.as_flattened();
    admits(&rt, house)?;
    let begun = starts(&rt, house)?;
    let mut s = begun;
    println!(rt; "J, up to a stop at 30")?;
    ticks(&rt, &mut s, 0..1)?;
    // The worst pattern of the house table releases tasks 2 to 4 at 1, and task 1 at 20.
    releases(&rt, &mut s.state, &[(2, 3), (3, 2), (4, 4)])?;
    ticks(&rt, &mut s, 1..20)?;
    releases(&rt, &mut s.state, &[(1, 2)])?;
    ticks(&rt, &mut s, 20..30)?;
    kept(&rt, &s)?;
    let stop = s;
    println!(rt; "J, from the stop on")?;
    ticks(&rt, &mut s, 30..40)?;
    kept(&rt, &s)?;
    let jobs = [(0, 1), (5, 1), (2, 0), (2, 4), (1, 1), (2, 3)];
    let text = "releases at 30: task 1 rests, 2 to 4 work";
    asked_at(&rt, stop, text, &jobs)?;
    let jobs = [(2, 3), (1, 1), (1, 1)];
    asked_at(&rt, s, "releases at 40: all rest", &jobs)?;
    at_the_end(&rt, begun)?;
    strays(&rt, stop)?;
    short_state(&rt)?;
    energies(&rt)?;
    other_lengths(&rt, house)
}

// A verdict is written where the set is admitted or a task has no window, and only there.
fn admits(rt: &impl Print, house: &[u8]) -> io::Result<()> {
    let table = figure_1();
    let figure_1 = table.as_flattened();
    let mut verdict = [7; 48];
    println!(rt; "admit 79 bytes of the house table")?;
    answered(rt, node_admit(short_of(house), &mut verdict))?;
    written(rt, &verdict)?;
    println!(rt; "admit the house table")?;
    answered(rt, node_admit(house, &mut verdict))?;
    written(rt, &verdict)?;
    println!(rt; "admit the source's Figure 1")?;
    answered(rt, node_admit(figure_1, &mut verdict))?;
    written(rt, &verdict)?;
    let mut short = [7; 47];
    println!(rt; "admit into 47 words: the house table, Figure 1")?;
    answered(rt, node_admit(house, &mut short))?;
    answered(rt, node_admit(figure_1, &mut short))?;
    written(rt, &short)
}

// A start writes every word of a state, a refused one writes none. V = 9 is above S = 8.
fn starts(rt: &impl Print, house: &[u8]) -> io::Result<Saved> {
    let mut state = [7; 151];
    println!(rt; "start on 79 bytes of the house table, V = 2 and 9")?;
    answered(rt, node_start(short_of(house), 2, &mut state))?;
    answered(rt, node_start(short_of(house), 9, &mut state))?;
    println!(rt; "start on the house table, V = 9")?;
    answered(rt, node_start(house, 9, &mut state))?;
    written(rt, &state)?;
    let mut short = [7; 150];
    println!(rt; "start into 150 words, V = 2 and 9")?;
    answered(rt, node_start(house, 2, &mut short))?;
    answered(rt, node_start(house, 9, &mut short))?;
    written(rt, &short)?;
    println!(rt; "start on the house table, V = 2")?;
    answered(rt, node_start(house, 2, &mut state))?;
    written(rt, &state)?;
    Ok(Saved {
        state,
        tally: [0; 4],
    })
}

// The steps at these clocks are made, and each answer is written.
fn ticks(rt: &impl Print, s: &mut Saved, clocks: Range<u32>) -> io::Result<()> {
    for t in clocks {
        print!(rt; "{t} ")?;
        answered(rt, node_step(&mut s.state, &mut s.tally))?;
    }
    Ok(())
}

// These releases are made where a run has come to, and the words are written after them.
fn asked_at(rt: &impl Print, mut s: Saved, text: &str, jobs: &[(u32, u32)]) -> io::Result<()> {
    println!(rt; "{text}")?;
    releases(rt, &mut s.state, jobs)?;
    written(rt, &s.state)
}

// The clock's end gives 7, after 6.
fn at_the_end(rt: &impl Print, mut s: Saved) -> io::Result<()> {
    s.state[5] = 1000000000;
    s.tally[2] = 1000000000;
    println!(rt; "the clock's end")?;
    stepped(rt, &mut s.state, &mut s.tally)?;
    asked(rt, &mut s.state, 2, 3)?;
    s.tally[2] = 999999999;
    stepped(rt, &mut s.state, &mut s.tally)?;
    s.tally[2] = 1000000000;
    s.state[3] = 1;
    stepped(rt, &mut s.state, &mut s.tally)?;
    asked(rt, &mut s.state, 2, 3)?;
    written(rt, &s.state)
}

// Words that encode no state get 6, and so does another length.
fn strays(rt: &impl Print, mut s: Saved) -> io::Result<()> {
    stray(rt, &mut s, "task 1 neither rests nor works", 11, 2)?;
    stray(rt, &mut s, "task 1 rests with work left", 13, 1)?;
    stray(rt, &mut s, "V = 9, S = 8", 6, 9)?;
    println!(rt; "tallies of 3 and 5 words")?;
    stepped(rt, &mut s.state, &mut [2, 16, 12])?;
    stepped(rt, &mut s.state, &mut [2, 12, 12, 4, 0])?;
    println!(rt; "as they were")?;
    stepped(rt, &mut s.state, &mut s.tally)
}

// A step and a release are asked for while one word of the state is another.
fn stray(rt: &impl Print, s: &mut Saved, name: &str, place: usize, word: u32) -> io::Result<()>
    requires { place < 151 }
{
    println!(rt; "{name}")?;
    let before = mem::replace(&mut s.state[place], word);
    stepped(rt, &mut s.state, &mut s.tally)?;
    asked(rt, &mut s.state, 2, 3)?;
    s.state[place] = before;
    Ok(())
}

// These words are a state, sleep 1 in 2 and a task of 1 in 2, but for the length.
fn short_state(rt: &impl Print) -> io::Result<()> {
    let mut short = [0; 150];
    short[1] = 1;
    short[2] = 2;
    short[4] = 1;
    short[8] = 1;
    short[9] = 2;
    println!(rt; "a state of 150 words")?;
    asked(rt, &mut short, 1, 1)?;
    stepped(rt, &mut short, &mut [0, 0, 0, 0])
}

fn energies(rt: &impl Print) -> io::Result<()> {
    println!(rt; "energies: number, nanojoules")?;
    for (tally, run, sleep, waking) in [
        ([11, 12, 13, 4], 23000, 16, 9000),
        ([1000000000, 0, 0, 0], 1000000, 1, 1),
        ([0, 500000000, 500000000, 0], 1, 1000000, 1),
        ([0, 0, 0, 1000000000], 1, 1, 1000000),
        ([11, 12, 13, 4], 1000001, 16, 9000),
        ([11, 12, 13, 4], 23000, 1000001, 9000),
        ([11, 12, 13, 4], 23000, 16, 1000001),
        ([1000000000, 0, 1, 0], 1000001, 1, 1),
        ([0, 0, 0, 1000000001], 1, 1, 1000001),
    ] {
        consumed(rt, &tally, run, sleep, waking)?;
    }
    consumed(rt, &[11, 16, 13], 23000, 16, 9000)
}

// A buffer of another length gets 6, after 1 to 4 of the table and before 13 and 14.
fn other_lengths(rt: &impl Print, house: &[u8]) -> io::Result<()> {
    println!(rt; "admit 79 bytes into 47 words, the house table into 49")?;
    answered(rt, node_admit(short_of(house), &mut [7; 47]))?;
    answered(rt, node_admit(house, &mut [7; 49]))?;
    println!(rt; "V = 9: start on 79 bytes into 150 words, on the house table into 152")?;
    answered(rt, node_start(short_of(house), 9, &mut [7; 150]))?;
    answered(rt, node_start(house, 9, &mut [7; 152]))?;
    println!(rt; "energies of 3 words at 1,000,001 microwatts, of 5 words")?;
    consumed(rt, &[11, 16, 13], 23000, 16, 1000001)?;
    consumed(rt, &[11, 12, 13, 4, 0], 23000, 16, 9000)
}

// The releases of these tasks with these demands are asked for.
fn releases(rt: &impl Print, state: &mut [u32], jobs: &[(u32, u32)]) -> io::Result<()> {
    for &(task, demand) in jobs {
        asked(rt, state, task, demand)?;
    }
    Ok(())
}

fn asked(rt: &impl Print, state: &mut [u32], task: u32, demand: u32) -> io::Result<()> {
    print!(rt; "release {task} {demand} ")?;
    answered(rt, node_release(state, task, demand))
}

fn stepped(rt: &impl Print, state: &mut [u32], tally: &mut [u32]) -> io::Result<()> {
    print!(rt; "step ")?;
    answered(rt, node_step(state, tally))?;
    written(rt, tally)
}

// The powers come apart, as node_energy takes them.
fn consumed(rt: &impl Print, tally: &[u32], run: u32, sleep: u32, waking: u32) -> io::Result<()> {
    let answer = node_energy(tally, run, sleep, waking);
    println!(rt; "energy {} {}", answer % 256, answer / 256)
}

// The three parts of an answer, as node.h has them.
fn answered(rt: &impl Print, answer: u64) -> io::Result<()> {
    println!(rt;
        "answer {} {} {}",
        answer % 256,
        answer / 256 % 256,
        answer / 65536
    )
}

fn kept(rt: &impl Print, s: &Saved) -> io::Result<()> {
    written(rt, &s.state)?;
    written(rt, &s.tally)
}

// The words of a buffer that are not zero are written, each with its place.
fn written(rt: &impl Print, words: &[u32]) -> io::Result<()> {
    print!(rt; "{} words", words.len())?;
    for (i, word) in words.iter().enumerate() {
        if *word != 0 {
            print!(rt; " {i}={word}")?;
        }
    }
    println!(rt)
}

// The table is one byte short.
fn short_of(table: &[u8]) -> &[u8] {
    &table[..table.len().saturating_sub(1)]
}
