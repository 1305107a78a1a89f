// The listing program reads a table from standard input and writes its listing on standard output.
// All of it but the reading and the writing is texts::listing. Programs listing and long_listing are
// one text, each run on an input of its own, since what docs/PROMISES.md says of a longer input is
// said of the program itself.
#![tactic(auto)]

ghost use Rattle.std.specs.Prelude.{◌≤◌, length, IfOk};

use std::io;
use std::io::Read;

// The longest table has one byte less, so that a longer one is seen to be too long.
const ROOM: usize = 273;

#[tactic(auto, using(texts::proofs::PageLaws::shown_within))]
fn main(rt: HostRuntime) -> io::Result<()> {
    let mut input = [0; ROOM];
    let n = read_full(&mut rt.stdin(), &mut input)?;
    let page = texts::listing(&input[..n]);
    let text = &page.text[..page.len];
    rt.write_all(text)
}

// Reads until the buffer is full or the input ends. The result is how many bytes it put at the
// buffer's start. Not by `io::copy`: a read that was interrupted fails like any other, and `copy`
// would try it again and again (docs/LOOK-BACK.md, c).
fn read_full(input: &mut impl Read, buf: &mut [u8]) -> io::Result<usize>
    ensures { IfOk result (λ n. n ≤ length buf.new) }
{
    let mut done = 0;
    while done < buf.len() {
        let n = input.read(&mut buf[done..])?;
        if n == 0 {
            break;
        }
        done += n;
    }
    Ok(done)
}
