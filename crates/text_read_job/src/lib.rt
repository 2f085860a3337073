// The reader of the job's text (document 01, "One job, one listing"): functions on lent bytes, which take
// the text of every job within the program's limits, and nothing else. A part of the port: users run the
// job program and the converter.
//
//   text_read_words   words and numbers
//   text_read_lines   lines by their keys
//   text_read_parts   the head, the vertices, the indices, the tail
//   read_job          the whole text: the job that it is the text of, or that it is none
#![tactic(auto)]

ghost use Rattle.std.specs.Prelude.{◌≡◌, ◌≤◌, length};
ghost use Rattle.text.specs.Limits.{coordinate_room, index_room};
ghost use Rattle.text_read_job.specs.Reading.{Reads, ReadsAs};

use mesh_topology::Indices;
use refusals::Refusal;
use text::{COORDINATE_ROOM, Head, INDEX_ROOM, Tail};

// A job as its text gives it. Floats are bit patterns. The vertices, three numbers each, and the indices
// stand in the lent slices, so many of them; without indices there are 0.
#[derive(Clone, Copy)]
pub struct Asked {
    pub head: Head,
    pub vertices: usize,
    pub given: Indices,
    pub indices: usize,
    pub tail: Tail,
}

// Slices to be lent, for the vertices and for the indices.
pub fn coordinate_words() -> [u32; COORDINATE_ROOM]
    ensures { coordinate_room ≡ length result }
{
    [0; COORDINATE_ROOM]
}

pub fn index_words() -> [u32; INDEX_ROOM]
    ensures { index_room ≡ length result }
{
    [0; INDEX_ROOM]
}

// Reads a whole text; one that is the text of no job within the limits is unreadable. The lent slices have room for
// as many vertices, three numbers each, and as many indices as the program takes.
pub fn read_job(text: &[u8], vertices: &mut [u32], indices: &mut [u32]) -> Result<Asked, Refusal>
    requires { (coordinate_room ≤ length vertices.old) × (index_room ≤ length indices.old) }
    ensures { Reads text.now vertices.new indices.new result }
{
    whole_job(text, vertices, indices).ok_or(Refusal::Unreadable)
}

// The parts one behind the other, and nothing behind the last.
fn whole_job(text: &[u8], vertices: &mut [u32], indices: &mut [u32]) -> Option<Asked>
    requires { (coordinate_room ≤ length vertices.old) × (index_room ≤ length indices.old) }
    ensures { ReadsAs text.now vertices.new indices.new result }
{
    let head = text_read_parts::head(text, 0)?;
    let count = text_read_parts::vertices(text, head.next, vertices)?;
    let topology = head.value.topology;
    let row = text_read_parts::indices(text, count.next, topology, indices)?;
    let tail = text_read_parts::tail(text, row.next)?;
    if tail.next < text.len() {
        return None;
    }
    Some(Asked {
        head: head.value,
        vertices: count.value as usize,
        given: row.value.given,
        indices: row.value.count,
        tail: tail.value,
    })
}
