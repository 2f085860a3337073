// The whole listing of an answer, written into lent bytes. A part of the port: users run the job program.
#![tactic(auto)]

ghost use Rattle.std.specs.Prelude.{◌≤◌, ◌<◌, length, ◌≡◌};
ghost use Rattle.refusals.specs.Numbers.{given, reply_of};
ghost use Rattle.job_outcome.specs.declared.Tally.{Tally};
ghost use Rattle.lists.specs.Put.{Put};
ghost use Rattle.listing.specs.Listing.{listed};
ghost use Rattle.listing.specs.Written.{shown, RoomToList, WritesListing};

use job_outcome::Answer;
use listing::{put_cells, put_rows};
use text::{LISTING_ROOM, MOST_CELLS};
use text_write::{put_long_number, put_number};

// The listing of a job that is done.
fn put_done(
    out: &mut [u8],
    pops: u32,
    peak: u32,
    grazed: u64,
    field: &[f32],
    names: &[u32],
    rows: &[u32],
) -> usize
    requires { RoomToList field.now names.now rows.now out.old }
    ensures { let left = shown field.now names.now rows.now in
        let tally : Tally = record { pops = pops; peak = peak; grazed = grazed } in
        Put out.old 0 (listed (given tally) left) out.new result }
{
    let a = put_number(out, 0, b"answer=", 0);
    let b = put_number(out, a, b"pops=", pops);
    let c = put_number(out, b, b"peak=", peak);
    let d = put_long_number(out, c, b"grazed=", grazed);
    let e = put_cells(out, d, field, names);
    put_rows(out, e, rows)
}

// Writes the listing of an answer and of what its job left, where it has no more cells and layers than the program
// takes, and `out` is at least 32,768 bytes long, which hold any such listing. Else it writes nothing.
pub fn write_listing(
    answer: Answer,
    field: &[f32],
    names: &[u32],
    rows: &[u32],
    out: &mut [u8],
) -> Option<usize>
    ensures { WritesListing (reply_of answer) field.now names.now rows.now out.old
        out.new result }
{
    if out.len() < LISTING_ROOM {
        return None;
    }
    if MOST_CELLS < field.len() {
        return None;
    }
    if names.len() != field.len() {
        return None;
    }
    if MOST_CELLS < rows.len() {
        return None;
    }
    match answer {
        Err(refusal) => {
            let n = put_number(out, 0, b"answer=", refusal.number());
            Some(n)
        }
        Ok(t) => {
            let peak = t.peak;
            if 4294967295 < peak {
                return None;
            }
            let n = put_done(out, t.pops, peak as u32, t.grazed, field, names, rows);
            Some(n)
        }
    }
}
