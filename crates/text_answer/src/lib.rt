// A job's text answered by its listing (document 01, "One job, one listing"): what the job program does with
// its input, as one function on lent bytes. A part of the port: users run the job program.
#![tactic(auto)]

ghost use Rattle.std.specs.Prelude.{◌≡◌, ◌<◌, ◌≤◌, length};
ghost use Rattle.text.specs.Limits.{listing_room};
ghost use Rattle.text.specs.Answering.{Answered, Front};
ghost use Rattle.listing.specs.Listing.{Prints};

use listing_run::answer_job;
use terms::Pass;
use text::LISTING_ROOM;
use text_read_job::{coordinate_words, index_words, read_job};
use text_write::put_number;

// Answers a text: puts the listing of its job at the front of `out`, or `answer=9` where it is the text of no
// job within the program's limits, and tells how many bytes that are. `out` must have room for the longest
// listing, 32,768 bytes: else nothing is put. The job's queue is a row of records, or three buffers, and its crossings
// are counted by either pass: the listing is the same.
pub fn run_text_by(text: &[u8], out: &mut [u8], records: bool, pass: Pass) -> usize
    ensures front { Front result out.new }
    ensures answered { listing_room ≤ length out.old → Answered Prints text.now out.old out.new result }
    ensures value { length out.old < listing_room → (result ≡ 0) × (out.new ≡ out.old) }
{
    if out.len() < LISTING_ROOM {
        return 0;
    }
    let mut bits = coordinate_words();
    let mut indices = index_words();
    match read_job(text, &mut bits, &mut indices) {
        Err(refusal) => put_number(out, 0, b"answer=", refusal.number()),
        Ok(asked) => {
            let n = 3 * asked.vertices;
            let k = asked.indices;
            answer_job(asked, &bits[..n], &indices[..k], records, pass, out)
        }
    }
}

// The same over three buffers, by the quick pass.
pub fn run_text(text: &[u8], out: &mut [u8]) -> usize
    ensures front { Front result out.new }
    ensures answered { listing_room ≤ length out.old → Answered Prints text.now out.old out.new result }
    ensures value { length out.old < listing_room → (result ≡ 0) × (out.new ≡ out.old) }
{
    run_text_by(text, out, false, Pass::Quick)
}
