// The admission test gives, for any bytes, a verdict that a dealer can believe. specs/Verdicts.antt
// says what it is, specs/Figure.antt what limit and figure are.
#![tactic(auto)]

ghost use Rattle.std.specs.Prelude.{◌≡◌, ◌+◌, ◌*◌, ◌≤◌, ◌<◌, Ok};
ghost use Rattle.base.specs.Sum.{sum_to};
ghost use Rattle.theory.specs.Round.{ceil as theory·ceil};
ghost use Rattle.theory.specs.Rules.{demand as theory·demand};
ghost use Rattle.table.specs.Bytes.{record_at};
ghost use Rattle.table.specs.Sound.{read_of};
ghost use Rattle.table.specs.Set.{rules_of};
ghost use Rattle.table.specs.Times.{waiting};
ghost use Rattle.admission.specs.Figure.{limit as admission·limit, figure as admission·figure};
ghost use Rattle.admission.specs.Verdicts.{walk_from, admit_of, no_rows};

use table::{PLACES, Record, Refusal, read, record_at};

// A row has what the test finds for one task: window, response figure and rounds.
#[derive(Clone, Copy, Debug, Default, PartialEq, Eq)]
pub struct Row {
    pub window: u32,
    pub figure: u32,
    pub rounds: u32,
}

// A verdict is the number of tasks admitted, or the refusal, and a row by task from place 0 on.
// Under refusal 5 the tasks before the failing one have theirs (RULES 3.1), so that the rows stand
// beside the answer; rows that nothing fills are zero. A
// node has no heap, so that the array has room for all.
#[derive(Clone, Copy, Debug, PartialEq, Eq)]
pub struct Verdict {
    pub answer: Result<u32, Refusal>,
    pub rows: [Row; PLACES],
}

// The verdict on any bytes is one of refusals 1 to 5, or admitted with the number of tasks.
pub fn admit(table: &[u8]) -> Verdict
    ensures { result ≡ admit_of table.now }
{
    match read(table) {
        Ok(tasks) => {
            let read = ReadTable {
                bytes: table,
                tasks,
            };
            read.walk()
        }
        Err(refusal) => Verdict {
            answer: Err(refusal),
            rows: [Row::default(); PLACES],
        },
    }
}

// A table that was read as sound is the caller's bytes with the number of their tasks. Nothing
// compares or prints it.
#[derive(Clone, Copy)]
struct ReadTable<'a> {
    bytes: &'a [u8],
    tasks: u32,
    ghost reads: { read_of bytes.now ≡ Ok tasks },
}

impl ReadTable<'_> {
    // The walk goes over tasks and rounds, and stops at the first task without a window.
    #[tactic(auto, using(crate::proofs::DemandLaws::table_sound, crate::proofs::DemandLaws::table_small, crate::proofs::DemandLaws::few_tasks, crate::proofs::DemandLaws::work_at, crate::proofs::DemandLaws::sleep_at, crate::proofs::WalkLaws::walk_step, theory::proofs::WindowLaws::demand_first, theory::proofs::WindowLaws::demand_mono, theory::proofs::RoundsLaws::rounds_none, theory::proofs::RoundsLaws::rounds_found, theory::proofs::RoundsLaws::rounds_go), unfolding(theory::specs::Rounds::outcome, crate::specs::Verdicts::walk_from))]
    fn walk(&self) -> Verdict
        ensures { result ≡ walk_from (rules_of self.now.bytes.now) self.now.tasks 0 no_rows }
    {
        let mut rows = [Row::default(); PLACES];
        let mut answer = Ok(self.tasks);
        'tasks: for i in 0..self.tasks {
            let most = self.limit(i);
            let mut w = self.task(i).work + self.sleep().work;
            let mut k: u32 = 0;
            // Tasks outside, rounds inside, left by a label: the customer's form (docs/DECISIONS.md,
            // "Forms").
            let rounds = 'rounds: loop {
                if most < w {
                    answer = Err(Refusal::NoWindow {
                        task: i + 1,
                        rounds: k,
                    });
                    break 'tasks;
                }
                let d = self.demand(i, w);
                k += 1;
                if d == w {
                    break 'rounds k;
                }
                w = d;
            };
            rows[i as usize] = Row {
                window: w,
                figure: self.figure(i, w),
                rounds,
            };
        }
        Verdict { answer, rows }
    }

    fn sleep(&self) -> Record
        ensures { result ≡ record_at self.now.bytes.now 0 }
    {
        record_at(self.bytes, 0)
    }

    // This is the record of task i, from 0.
    fn task(&self, i: u32) -> Record
        ensures { result ≡ record_at self.now.bytes.now (i + 1) }
    {
        record_at(self.bytes, i as usize + 1)
    }

    // Who speaks of a task asks that there is one (`i < tasks`), and of a window that it is no longer
    // than any limit. A type for a task would hold this table and its number, be made anew for each
    // task in `walk` and `jobs_above`, and ask the same fact there.

    // The limit of task i's window, from 0, is the ticks that a job has, without those that it may
    // wait.
    #[tactic(auto, using(crate::proofs::DemandLaws::period_at, crate::proofs::DemandLaws::waits_at))]
    fn limit(&self, i: u32) -> u32
        requires { i < self.now.tasks }
        ensures { result ≡ admission·limit (rules_of self.now.bytes.now) i }
    {
        self.task(i).period - self.wait(i)
    }

    // The response figure of task i, from 0, with a window of w ticks is the window after the wait.
    #[tactic(auto, using(crate::proofs::DemandLaws::wait_small))]
    fn figure(&self, i: u32, w: u32) -> u32
        requires { (i < self.now.tasks) × (w ≤ 60000) }
        ensures { result ≡ admission·figure (rules_of self.now.bytes.now) i w }
    {
        w + self.wait(i)
    }

    // `demand` is the demand of a window of w ticks at task i, from 0.
    #[tactic(auto, using(crate::proofs::DemandLaws::work_at), unfolding(theory::specs::Rules::demand))]
    fn demand(&self, i: u32, w: u32) -> u32
        requires { (i < self.now.tasks) × (w ≤ 60000) }
        ensures { result ≡ theory·demand (rules_of self.now.bytes.now) i w }
    {
        let sleep = self.sleep();
        let k = ceil(w, sleep.period);
        // A job that came during the wait runs in the window too: the jobs above are counted over k * H.
        let span = k * sleep.period;
        let above = self.jobs_above(i, span);
        self.task(i).work + k * sleep.work + above
    }

    // `jobs_above` is the work of the jobs of tasks 0 to i - 1 that come in a span of ticks.
    #[tactic(auto, using(crate::proofs::DemandLaws::work_at, crate::proofs::DemandLaws::period_at), unfolding(base::specs::Sum::sum_to))]
    fn jobs_above(&self, i: u32, span: u32) -> u32
        requires { (i ≤ self.now.tasks) × (span ≤ 120000) }
        ensures { result ≡ sum_to i (λ j. (rules_of self.now.bytes.now).C j * theory·ceil span ((rules_of self.now.bytes.now).T j)) }
    {
        let mut sum = 0;
        for j in 0..i {
            let task = self.task(j);
            sum += task.work * ceil(span, task.period);
        }
        sum
    }

    // `wait` is how long a job of task i, from 0, may wait for its boundary.
    #[tactic(auto, unfolding(table::specs::Times::waiting))]
    fn wait(&self, i: u32) -> u32
        ensures { result ≡ waiting i (record_at self.now.bytes.now 0).period }
    {
        let h = self.sleep().period;
        if i == 0 { 0 } else { h - 1 }
    }
}

// `ceil` is a / b, rounded up.
#[tactic(auto, using(theory::proofs::RoundLaws::div_ceil_is))]
fn ceil(a: u32, b: u32) -> u32
    requires { 1 ≤ b }
    ensures { result ≡ theory·ceil a b }
{
    a.div_ceil(b)
}
