// The job program (document 01, "One job, one listing"): standard input is a job's text, and its listing goes
// to standard output, or `answer=9`. All that it decides is `text_answer::run_text`.
#![tactic(auto)]

ghost use Rattle.std.specs.Prelude.{◌≡◌, length};
ghost use Rattle.text.specs.Limits.{listing_room};

use std::io;
use streams::{large_buffer, read_full};
use text::LISTING_ROOM;

fn room() -> [u8; LISTING_ROOM]
    ensures { listing_room ≡ length result }
{
    [0; LISTING_ROOM]
}

fn main(rt: HostRuntime) -> io::Result<()> {
    // The longest text of a job has 37,499 bytes: one that fills the buffer is none.
    let mut text = large_buffer();
    let n = read_full(&mut rt.stdin(), &mut text)?;
    let mut out = room();
    let m = text_answer::run_text(&text[..n], &mut out);
    rt.write_all(&out[..m])
}
