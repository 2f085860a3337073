// The whole text.
ghost use Rattle.std.specs.Prelude.{◌≡◌};
ghost use Rattle.text.specs.TextJob.{job_text};
ghost use Rattle.text_read_job.specs.Told.{job_in};
ghost use Rattle.lists.specs.Put.{Put};
ghost use Rattle.text_write_job.specs.Written.{most_given, RoomToWrite, WritesJob};

use crate::parts::{put_head, put_indices, put_tail, put_vertices};
use mesh_topology::{Indices, Topology};
use text::{MOST_VERTICES, TEXT_ROOM, most_indices};
use text_read_job::Asked;

// How many indices a job may have.
fn most_given(topology: Topology, given: Indices) -> usize
    ensures { result ≡ most_given topology given }
{
    match given {
        Indices::Given => most_indices(topology) as usize,
        Indices::None => 0,
    }
}

// The text of a job that fits.
pub fn put_job(out: &mut [u8], asked: Asked, vertices: &[u32], indices: &[u32]) -> usize
    requires { RoomToWrite asked vertices.now indices.now out.old }
    ensures { Put out.old 0 (job_text (job_in asked vertices.now indices.now))
        out.new result }
{
    let head = asked.head;
    let given = asked.given;
    let tail = asked.tail;
    let a = put_head(out, head);
    let b = put_vertices(out, a, vertices, asked.vertices);
    let c = put_indices(out, b, given, indices, asked.indices);
    put_tail(out, c, tail)
}

// Writes the text of the job that `asked` and the slices hold, where it has no more vertices and indices than the
// program takes, which the slices hold, and `out` is at least 40,960 bytes long, which hold any such text, and tells
// how many bytes that are. Else it writes nothing.
pub fn write_job(asked: Asked, vertices: &[u32], indices: &[u32], out: &mut [u8]) -> Option<usize>
    ensures { WritesJob asked vertices.now indices.now out.old out.new result }
{
    let head = asked.head;
    let topology = head.topology;
    let given = asked.given;
    if out.len() < TEXT_ROOM {
        return None;
    }
    if (MOST_VERTICES as usize) < asked.vertices {
        return None;
    }
    if vertices.len() < 3 * asked.vertices {
        return None;
    }
    if most_given(topology, given) < asked.indices {
        return None;
    }
    if indices.len() < asked.indices {
        return None;
    }
    Some(put_job(out, asked, vertices, indices))
}
