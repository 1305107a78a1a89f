// The listings of many tables, built in, stand each under a line with its name: this runs and
// compares what docs/RULES.md says of the admission test and the listing.
#![tactic(auto)]

ghost use Rattle.std.specs.Prelude.{◌*◌, ◌<◌, ◌≤◌};

use std::{array, io};
use table::{RECORD_BYTES, Record, record_bytes};

fn main(rt: HostRuntime) -> io::Result<()> {
    sets(&rt)?;
    lengths(&rt)?;
    records(&rt)?;
    order(&rt)?;
    edges(&rt)
}

// These are the sets of RULES 15, A to H, and the three tasks that tell k times H from w.
fn sets(rt: &impl Print) -> io::Result<()> {
    show(rt, "A: the house table", house())?;
    show(
        rt,
        "B: last work 5",
        drafted([(8, 20), (2, 20), (3, 50), (2, 100), (5, 200)]),
    )?;
    show(
        rt,
        "C: last work 6",
        drafted([(8, 20), (2, 20), (3, 50), (2, 100), (6, 200)]),
    )?;
    show(
        rt,
        "D: the source's Table I",
        drafted([(1, 5), (3, 10), (1, 15), (1, 40), (1, 300), (1, 500)]),
    )?;
    show(
        rt,
        "E: the source's Figure 1",
        drafted([(5, 10), (1, 10), (1, 15), (2, 26)]),
    )?;
    show(
        rt,
        "F: the source's Figure 3",
        drafted([(7, 10), (1, 10), (1, 15), (2, 26)]),
    )?;
    show(rt, "G: 1 in 2", drafted([(1, 2), (1, 2)]))?;
    show(rt, "G: 2 in 4", drafted([(1, 2), (2, 4)]))?;
    show(rt, "G: 3 in 4", drafted([(1, 2), (3, 4)]))?;
    show(rt, "H: 1 in 6", drafted([(1, 4), (1, 4), (1, 6)]))?;
    show(rt, "H: 1 in 5", drafted([(1, 4), (1, 4), (1, 5)]))?;
    show(
        rt,
        "three tasks: 1 in 4, 1 in 7, 2 in 11",
        drafted([(1, 4), (1, 4), (1, 7), (2, 11)]),
    )?;
    show(
        rt,
        "1 in 4, 1 in 5: with a wait one tick shorter the figure would be 4",
        drafted([(1, 2), (1, 4), (1, 5)]),
    )
}

// Refusal number 1 is tried here, and before 2.
fn lengths(rt: &impl Print) -> io::Result<()> {
    let mut few = house();
    cut(rt, "no bytes", few, 0)?;
    cut(rt, "15 bytes", few, 15)?;
    cut(rt, "16 bytes", few, 16)?;
    cut(rt, "79 bytes of the house table", few, 79)?;
    let mut many: [Record; 18] = steady(60000);
    show(rt, "18 records", many)?;
    cut(rt, "17 records and a byte", many, 273)?;
    few[2].work = 0;
    cut(rt, "1 and 2: 79 bytes, record 2 is broken", few, 79)?;
    many[2].work = 0;
    show(rt, "1 and 2: 18 records, record 2 is broken", many)
}

// Refusal number 2 is tried here: each of its rules, in the first, a middle and the last record,
// and before 3 and 4.
fn records(rt: &impl Print) -> io::Result<()> {
    broken(rt, "in record 0", 0)?;
    broken(rt, "in record 2", 2)?;
    broken(rt, "in record 4", 4)?;
    changed(rt, "2 and 3: record 2 falls, record 4 is broken", |r| {
        r[2].period = 19;
        r[4].reserved = 1;
    })?;
    changed(rt, "2 and 4: S = H, record 4 is broken", |r| {
        r[0].work = 20;
        r[4].work = 0;
    })?;
    changed(rt, "2 twice: records 1 and 3", |r| {
        r[3].work = 0;
        r[1].reserved = 9;
    })
}

// Refusal numbers 3 and 4 are tried here.
fn order(rt: &impl Print) -> io::Result<()> {
    changed(rt, "3: record 2 falls", |r| r[2].period = 19)?;
    changed(rt, "3: record 4 falls", |r| r[4].period = 99)?;
    changed(rt, "3 twice: records 2 and 4 fall", |r| {
        r[2].period = 19;
        r[4].period = 99;
    })?;
    changed(rt, "3 and 4: S = H, record 3 falls", |r| {
        r[0].work = 20;
        r[3].period = 49;
    })?;
    changed(rt, "4: S = H", |r| r[0].work = 20)?;
    changed(rt, "4: period 1 no multiple of H", |r| r[1].period = 30)?;
    show(
        rt,
        "4: period 1 below H",
        drafted([(8, 20), (2, 19), (3, 50)]),
    )
}

// The edges of what is sound are tried here.
fn edges(rt: &impl Print) -> io::Result<()> {
    show(rt, "16 tasks", steady::<17>(40))?;
    show(rt, "16 tasks, the 13th without a window", steady::<17>(20))?;
    show(
        rt,
        "equal periods",
        drafted([(1, 10), (2, 30), (3, 30), (4, 30)]),
    )?;
    show(
        rt,
        "periods of 60,000",
        drafted([(1, 60000), (20000, 60000), (1, 60000)]),
    )?;
    show(
        rt,
        "H = 2, periods of 60,000",
        drafted([(1, 2), (1, 60000), (29997, 60000), (1, 60000)]),
    )?;
    changed(rt, "labels 0 and 4,294,967,295", |r| {
        r[1].label = 0;
        r[4].label = u32::MAX;
    })
}

// The house table is listed with each of the faults of number 2 in record k.
fn broken(rt: &impl Print, name: &str, k: usize) -> io::Result<()>
    requires { k < 5 }
{
    changed(rt, name, |r| r[k].work = 0)?;
    changed(rt, name, |r| {
        r[k].work = 301;
        r[k].period = 300;
    })?;
    changed(rt, name, |r| r[k].period = 60001)?;
    changed(rt, name, |r| r[k].reserved = 1)
}

// The listing of the house table with a change is written.
fn changed<F: FnOnce(&mut [Record; 5])>(rt: &impl Print, name: &str, change: F) -> io::Result<()>
    requires { F.IsAlwaysCallable change }
{
    let mut records = house();
    change(&mut records);
    show(rt, name, records)
}

// The house table has labels 10 to 14.
fn house() -> [Record; 5] {
    labelled(10, [(8, 20), (2, 20), (3, 50), (2, 100), (4, 200)])
}

// The records are all of work 1 and of the same period, but the sleep record, whose period is 4.
fn steady<const N: usize>(period: u32) -> [Record; N] {
    let mut records = drafted([(1, period); N]);
    if let Some(sleep) = records.first_mut() {
        sleep.period = 4;
    }
    records
}

// A record has its number as label.
fn drafted<const N: usize>(pairs: [(u32, u32); N]) -> [Record; N] {
    labelled(0, pairs)
}

// The records have these works and periods, and labels from the first on.
fn labelled<const N: usize>(first: u32, pairs: [(u32, u32); N]) -> [Record; N] {
    let mut records = [Record::default(); N];
    for (record, (&(work, period), label)) in records.iter_mut().zip(pairs.iter().zip(first..)) {
        *record = Record {
            label,
            work,
            period,
            ..Record::default()
        };
    }
    records
}

// The listing of a whole table is written.
fn show<const N: usize>(rt: &impl Print, name: &str, records: [Record; N]) -> io::Result<()> {
    list(rt, name, table_of(&records).as_flattened())
}

// The listing of a table's first so many bytes is written.
fn cut<const N: usize>(
    rt: &impl Print,
    name: &str,
    records: [Record; N],
    len: usize,
) -> io::Result<()>
    requires { len ≤ 16 * N }
{
    list(rt, name, &table_of(&records).as_flattened()[..len])
}

// As in vectors and responses: a library function of any N would say more in its contract.
fn table_of<const N: usize>(records: &[Record; N]) -> [[u8; RECORD_BYTES]; N] {
    array::from_fn(|i| record_bytes(records[i]))
}

// The listing of any bytes is written, under its name.
#[tactic(auto, using(texts::proofs::PageLaws::shown_within))]
fn list(rt: &impl Print, name: &str, table: &[u8]) -> io::Result<()> {
    println!(rt; "{name}")?;
    let page = texts::listing(table);
    let text = &page.text[..page.len];
    rt.write_all(text)
}
