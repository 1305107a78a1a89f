// A task table is records of 16 bytes in the caller's own bytes, read where they stand and never
// copied. What the bytes hold is said by specs/Bytes.antt, when a table is sound and which refusal
// it gets otherwise by specs/Sound.antt, when a task may be released by specs/Times.antt, and what
// a refusal comes back with and which call gives it by specs/Refusals.antt.
#![tactic(auto)]

ghost use Rattle.std.specs.Prelude.{◌≡◌, ◌+◌, ◌<◌, ◌≤◌, ◌/◌, length};
ghost use Rattle.base.specs.First.{found_in};
ghost use Rattle.table.specs.Refusals.{search_gives, told_of};
ghost use Rattle.table.specs.Bytes.{word_at, record_at, record_bytes, records_in};
ghost use Rattle.table.specs.Sound.{record_fits, sleep_fits, first_broken, first_falling, read_of};
ghost use Rattle.table.specs.Times.{release_time};

// These are the bytes of a record, the places for tasks (a table has no more tasks), and the
// largest period.
pub const RECORD_BYTES: usize = 16;

pub const PLACES: usize = 16;

pub const MOST_TASKS: u32 = PLACES as u32;

pub const LARGEST: u32 = 60000;

// This is one record. In record 0 the work is the sleep time S and the period the harmonizing
// period H. The default is a record of zeros.
#[derive(Clone, Copy, Debug, Default, PartialEq, Eq)]
pub struct Record {
    pub label: u32,
    pub work: u32,
    pub period: u32,
    pub reserved: u32,
}

// These refusals are what is turned away, in the order of their numbers, 1 to 14 (RULES 3.1).
#[derive(Clone, Copy, Debug, PartialEq, Eq)]
pub enum Refusal {
    Length,
    Broken { record: u32 },
    Falling { record: u32 },
    Sleep,
    NoWindow { task: u32, rounds: u32 },
    Unfit,
    ClockEnd,
    NoTask,
    Demand,
    OffBoundary,
    Working,
    Early,
    Power,
    LongWaking,
}

// This is a refusal as RULES 3.1 and include/node.h give it: its number, the record or task that comes back with
// it, and the rounds spent; what it does not come back with is 0.
#[derive(Clone, Copy, Debug, Default, PartialEq, Eq)]
pub struct Told {
    pub number: u32,
    pub place: u32,
    pub rounds: u32,
}

// `read` gives the reading of any bytes: the number of tasks of a sound table, or the lowest of
// refusals 1 to 4 that applies.
#[tactic(auto, unfolding(crate::specs::Sound::read_of, crate::specs::Sound::ask_records, crate::specs::Sound::ask_order, crate::specs::Sound::ask_sleep))]
pub fn read(table: &[u8]) -> Result<u32, Refusal>
    ensures { result ≡ read_of table.now }
{
    let count = records_in(table);
    if table.len() % RECORD_BYTES != 0 || count < 2 || PLACES + 1 < count {
        return Err(Refusal::Length);
    }
    // Number 2 looks at all records before 3 is considered.
    if let Some(k) = first_broken(table, count) {
        return Err(Refusal::Broken { record: k as u32 });
    }
    if let Some(k) = first_falling(table, count) {
        return Err(Refusal::Falling { record: k as u32 });
    }
    if !sleep_fits(record_at(table, 0), record_at(table, 1)) {
        return Err(Refusal::Sleep);
    }
    Ok((count - 1) as u32)
}

// `records_in` tells how many whole records the bytes hold.
pub fn records_in(table: &[u8]) -> usize
    ensures { result ≡ records_in table.now }
{
    table.len() / RECORD_BYTES
}

// `record_at` gives record k, or a record of zeros where the bytes hold no whole record k.
#[tactic(auto, unfolding(crate::specs::Bytes::record_at))]
pub fn record_at(table: &[u8], k: usize) -> Record
    ensures { result ≡ record_at table.now k }
{
    if records_in(table) <= k {
        return Record::default();
    }
    Record {
        label: word_in(table, RECORD_BYTES * k),
        work: word_in(table, RECORD_BYTES * k + 4),
        period: word_in(table, RECORD_BYTES * k + 8),
        reserved: word_in(table, RECORD_BYTES * k + 12),
    }
}

// `record_bytes` gives the bytes of a record, as a table has them.
pub fn record_bytes(r: Record) -> [u8; RECORD_BYTES]
    ensures { result ≡ record_bytes r }
{
    let words = [
        r.label.to_le_bytes(),
        r.work.to_le_bytes(),
        r.period.to_le_bytes(),
        r.reserved.to_le_bytes(),
    ];
    let mut bytes = [0; RECORD_BYTES];
    bytes.copy_from_slice(words.as_flattened());
    bytes
}

// `word_at` gives the 32-bit number at a byte position, little-endian, or 0 where not all four
// bytes are there.
#[tactic(auto, unfolding(crate::specs::Bytes::word_at))]
pub fn word_at(bytes: &[u8], at: usize) -> u32
    ensures { result ≡ word_at bytes.now at }
{
    if bytes.len() < 4 || bytes.len() - 4 < at {
        return 0;
    }
    word_in(bytes, at)
}

// `word_in` is `word_at` where the bytes are there: with a test for each word admission took 1.67
// times the Rust, and its aim is 1.2 (docs/PERFORMANCE.md).
#[tactic(auto, unfolding(crate::specs::Bytes::word_at))]
fn word_in(bytes: &[u8], at: usize) -> u32
    requires { at + 4 ≤ length bytes.now }
    ensures { result ≡ word_at bytes.now at }
{
    u32::from_le_bytes([bytes[at], bytes[at + 1], bytes[at + 2], bytes[at + 3]])
}

// `record_fits` tells whether a record keeps the rule of C, T and the reserved field (number 2).
pub fn record_fits(r: Record) -> bool
    ensures { result ≡ record_fits r }
{
    1 <= r.work && r.work <= r.period && r.period <= LARGEST && r.reserved == 0
}

// `sleep_fits` tells whether S is below H and the first task's period is a multiple of H (number
// 4).
pub fn sleep_fits(sleep: Record, first: Record) -> bool
    ensures { result ≡ sleep_fits sleep first }
{
    // S is below H here, so H is not 0 where it divides.
    sleep.work < sleep.period && first.period % sleep.period == 0
}

// `release_time` tells whether the task at place i, from 0, may be released at a tick: the first
// task may at multiples of h alone, any other at every tick. Of 0 only 0 is a multiple.
#[tactic(auto, unfolding(crate::specs::Times::release_time))]
pub fn release_time(h: u32, i: u32, tick: u32) -> bool
    ensures { result ≡ release_time h i tick }
{
    i != 0 || tick.is_multiple_of(h)
}

// `no_window` tells whether a refusal is that of the search for windows: its table is sound, and
// the tasks before the one that it names have their windows.
pub fn no_window(refusal: Refusal) -> bool
    ensures { result ≡ search_gives refusal }
{
    matches!(refusal, Refusal::NoWindow { .. })
}

// A refusal is told by its number and what comes back with it.
impl From<Refusal> for Told {
    ghost from_gives = { λ refusal t. t ≡ told_of refusal };

    fn from(refusal: Refusal) -> Told {
        let numbered = |number| Told {
            number,
            ..Told::default()
        };
        match refusal {
            Refusal::Length => numbered(1),
            Refusal::Broken { record } => Told {
                place: record,
                ..numbered(2)
            },
            Refusal::Falling { record } => Told {
                place: record,
                ..numbered(3)
            },
            Refusal::Sleep => numbered(4),
            Refusal::NoWindow { task, rounds } => Told {
                number: 5,
                place: task,
                rounds,
            },
            Refusal::Unfit => numbered(6),
            Refusal::ClockEnd => numbered(7),
            Refusal::NoTask => numbered(8),
            Refusal::Demand => numbered(9),
            Refusal::OffBoundary => numbered(10),
            Refusal::Working => numbered(11),
            Refusal::Early => numbered(12),
            Refusal::Power => numbered(13),
            Refusal::LongWaking => numbered(14),
        }
    }
}

// `first_broken` gives the first record that breaks its rule.
fn first_broken(table: &[u8], count: usize) -> Option<usize>
    ensures { result ≡ found_in (first_broken (record_at table.now) count) count }
{
    (0..count).find(|&k| !record_fits(record_at(table, k)))
}

// `first_falling` gives the first record from 2 on whose period is below that of the one before.
fn first_falling(table: &[u8], count: usize) -> Option<usize>
    requires { 2 ≤ count }
    ensures { result ≡ found_in (first_falling (record_at table.now) count) count }
{
    (2..count).find(|&k| record_at(table, k).period < record_at(table, k - 1).period)
}
