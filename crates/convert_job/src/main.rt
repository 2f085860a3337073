// The converter (document 02, §7): standard input is an old job's text, and the text of the same job with its triangles
// listed goes to standard output, or `answer=9`. All that it decides is `text_convert::convert_text`.
#![tactic(auto)]

ghost use Rattle.std.specs.Prelude.{◌≡◌, length};
ghost use Rattle.text.specs.Limits.{text_room};

use std::io;
use streams::{large_buffer, read_full};
use text::TEXT_ROOM;

fn room() -> [u8; TEXT_ROOM]
    ensures { text_room ≡ length result }
{
    [0; TEXT_ROOM]
}

fn main(rt: HostRuntime) -> io::Result<()> {
    // The longest text of an old job has fewer than 20,000 bytes: one that fills the buffer is none.
    let mut text = large_buffer();
    let n = read_full(&mut rt.stdin(), &mut text)?;
    let mut out = room();
    let m = text_convert::convert_text(&text[..n], &mut out);
    rt.write_all(&out[..m])
}
