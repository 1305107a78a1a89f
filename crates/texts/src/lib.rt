// The listing of a table as text is a header, a line for each task that has its figures, and the
// verdict. specs/Listing.antt says what it is for any bytes.
#![tactic(auto)]

ghost use Rattle.std.specs.Prelude.{◌≡◌, ◌<◌};
ghost use Rattle.texts.specs.Pages.{blank, put, shown};
ghost use Rattle.texts.specs.Listing.{decimal, field_of, line_of, header, rows_shown, last_of, listing_of};

use admission::{Row, Verdict, admit};
use table::{Record, Refusal, Told, record_at};

// A page has this many bytes.
pub const ROOM: usize = 2048;

// A page of text has its bytes and how many of them are written. A byte after the last place is
// lost; no listing is that long (proofs/ListingLaws.antt). It is an array with a length, since
// that is the page which `listing` promises (`shown`), in fixed memory. Nothing compares or prints it.
#[derive(Clone, Copy)]
pub struct Page {
    pub text: [u8; ROOM],
    pub len: usize,
}

// The result is the listing of any bytes, on a page of zeros.
#[tactic(auto, using(crate::proofs::ListingLaws::rows_few, crate::proofs::ListingLaws::rows_taken, crate::proofs::ListingLaws::row_taken, crate::proofs::TextLaws::shown_append), unfolding(crate::specs::Listing::lines_of, crate::specs::Pages::shown))]
pub fn listing(table: &[u8]) -> Page
    ensures { result ≡ shown blank (listing_of table.now) }
{
    let Verdict { answer, rows } = admit(table);
    let mut page = Page::titled();
    for (i, row) in rows[..rows_shown(answer)].iter().enumerate() {
        page.line(i, record_at(table, i + 1), *row);
    }
    page.verdict(answer);
    page
}

// The result is how many tasks have a line.
fn rows_shown(answer: Result<u32, Refusal>) -> usize
    ensures { result ≡ rows_shown answer }
{
    match answer {
        Ok(tasks) => tasks as usize,
        Err(Refusal::NoWindow { task, .. }) => task.saturating_sub(1) as usize,
        Err(_) => 0,
    }
}

impl Page {
    // The first line is the header.
    #[tactic(auto, unfolding(crate::specs::Listing::header))]
    fn titled() -> Page
        ensures { result ≡ shown blank header }
    {
        let mut page = Page {
            text: [0; ROOM],
            len: 0,
        };
        page.show(b"task label work period window response rounds\n");
        page
    }

    // The line of the task at place i has its number, label, work, period, window, figure and
    // rounds.
    #[tactic(auto, using(crate::proofs::TextLaws::shown_append), unfolding(crate::specs::Listing::line_of, crate::specs::Pages::shown))]
    fn line(&mut self, i: usize, task: Record, row: Row)
        requires { i < 16 }
        ensures { self.new ≡ shown self.old (line_of i task row) }
    {
        self.field(i as u32 + 1);
        self.field(task.label);
        self.field(task.work);
        self.field(task.period);
        self.field(row.window);
        self.field(row.figure);
        self.number(row.rounds);
        self.put(b'\n');
    }

    // The last line is the verdict.
    #[tactic(auto, using(crate::proofs::TextLaws::shown_append), unfolding(crate::specs::Pages::shown))]
    fn verdict(&mut self, answer: Result<u32, Refusal>)
        ensures { self.new ≡ shown self.old (last_of answer) }
    {
        match answer {
            Ok(tasks) => {
                self.show(b"admitted ");
                self.number(tasks);
            }
            Err(refusal) => {
                let told = Told::from(refusal);
                self.show(b"refused ");
                self.field(told.number);
                self.number(told.place);
            }
        }
        self.put(b'\n');
    }

    // A field is a number and a space.
    #[tactic(auto, using(crate::proofs::TextLaws::shown_append), unfolding(crate::specs::Listing::field_of, crate::specs::Pages::shown))]
    fn field(&mut self, n: u32)
        ensures { self.new ≡ shown self.old (field_of n) }
    {
        self.number(n);
        self.put(b' ');
    }

    // The number is written in decimal digits. `write!` would give a Result, and fmt's clauses say
    // nothing of the page after an Err, but `listing` can't fail.
    #[tactic(auto, using(crate::proofs::TextLaws::shown_append, crate::proofs::TextLaws::decimal_digit, crate::proofs::TextLaws::decimal_more), unfolding(crate::specs::Pages::shown))]
    fn number(&mut self, n: u32)
        ensures { self.new ≡ shown self.old (decimal n) }
    {
        if n >= 10 {
            self.number(n / 10);
        }
        self.put(b'0' + (n % 10) as u8);
    }

    #[tactic(auto, unfolding(crate::specs::Pages::shown))]
    fn show(&mut self, text: &[u8])
        ensures { self.new ≡ shown self.old text.now }
    {
        for &byte in text {
            self.put(byte);
        }
    }

    #[tactic(auto, unfolding(crate::specs::Pages::put))]
    fn put(&mut self, byte: u8)
        ensures { self.new ≡ put self.old byte }
    {
        if self.len < ROOM {
            self.text[self.len] = byte;
            self.len += 1;
        }
    }
}
