// The tidier (document 02, §10): standard input is a job's text, and what went and the text of the tidied job go to
// standard output, or `answer=` and a number. All that it decides is `text_tidy::tidy_text`.
#![tactic(auto)]

use std::io;
use streams::{large_buffer, read_full};

fn main(rt: HostRuntime) -> io::Result<()> {
    // The longest text of a job has fewer than 40,000 bytes: one that fills the buffer is none.
    let mut text = large_buffer();
    let n = read_full(&mut rt.stdin(), &mut text)?;
    let mut out = large_buffer();
    let m = text_tidy::tidy_text(&text[..n], &mut out);
    rt.write_all(&out[..m])
}
