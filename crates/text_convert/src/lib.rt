// An old job's text converted (document 02, §7): a strip is printed as the same job with its triangles listed by
// explicit indices, and a list as it is. What the converter does with its input, as one function on lent bytes. It is
// about text: no job is refused for what it asks. A part of the port: users run the converter.
#![tactic(auto)]

ghost use Rattle.std.specs.Prelude.{◌≡◌, ◌<◌, ◌≤◌, length};
ghost use Rattle.mesh_topology.specs.declared.Topology.TheVariants.{TriangleStrip};
ghost use Rattle.lists.specs.Put.{Put};
ghost use Rattle.text.specs.Limits.{text_room};
ghost use Rattle.text.specs.TextJob.{job_text};
ghost use Rattle.text.specs.Answering.{Answered, Front};
ghost use Rattle.text_read_job.specs.Told.{job_in};
ghost use Rattle.text_write_job.specs.Written.{RoomToWrite};
ghost use Rattle.text_convert.specs.Converted.{list_head, as_list, converted, Converts};

use mesh_topology::{Indices, Topology};
use refusals::Refusal;
use text::{Head, TEXT_ROOM};
use text_read_job::{Asked, coordinate_words, index_words, read_job};
use text_write::put_number;
use text_write_job::put_job;

// How many indices an old job may have, a list too.
const OLD_MOST_INDICES: usize = 768;

// The same lines before the vertices, those that may be left out included, but for the topology.
fn list_head(head: Head) -> Head
    ensures { result ≡ list_head head }
{
    let count = head.count;
    let first = head.first;
    let size = head.size;
    let upright = head.upright;
    let sign = head.sign;
    Head {
        count,
        first,
        size,
        upright,
        topology: Topology::TriangleList,
        sign,
    }
}

// The text of a strip with its triangles listed.
fn put_listed(out: &mut [u8], asked: Asked, vertices: &[u32], indices: &[u32]) -> usize
    requires room_to_write { RoomToWrite asked vertices.now indices.now out.old }
    requires topology_value { asked.head.topology ≡ TriangleStrip }
    ensures { let j = job_in asked vertices.now indices.now in
        Put out.old 0 (job_text (as_list j)) out.new result }
{
    let mut explicit = index_words();
    let head = asked.head;
    let topology = head.topology;
    let given = asked.given;
    let tail = asked.tail;
    let k = asked.indices;
    let n = mesh_explicit::list_triangles(
        topology,
        given,
        &indices[..k],
        asked.vertices,
        &mut explicit,
    );
    let list = Asked {
        head: list_head(head),
        vertices: asked.vertices,
        given: Indices::Given,
        indices: n,
        tail,
    };
    put_job(out, list, vertices, &explicit)
}

// The text of the conversion.
fn put_converted(out: &mut [u8], asked: Asked, vertices: &[u32], indices: &[u32]) -> usize
    requires { RoomToWrite asked vertices.now indices.now out.old }
    ensures { let j = job_in asked vertices.now indices.now in
        Put out.old 0 (job_text (converted j)) out.new result }
{
    let head = asked.head;
    let topology = head.topology;
    match topology {
        Topology::TriangleList => put_job(out, asked, vertices, indices),
        Topology::TriangleStrip => put_listed(out, asked, vertices, indices),
    }
}

// Converts a text: puts the text of the converted job at the front of `out`, or `answer=9` where it is the text of no
// job within the old limits, and tells how many bytes that are. `out` must have room for the longest conversion,
// 40,960 bytes: else nothing is put.
pub fn convert_text(text: &[u8], out: &mut [u8]) -> usize
    ensures front { Front result out.new }
    ensures answered { text_room ≤ length out.old
        → Answered Converts text.now out.old out.new result }
    ensures value { length out.old < text_room → (result ≡ 0) × (out.new ≡ out.old) }
{
    if out.len() < TEXT_ROOM {
        return 0;
    }
    let mut bits = coordinate_words();
    let mut indices = index_words();
    match read_job(text, &mut bits, &mut indices) {
        Err(refusal) => put_number(out, 0, b"answer=", refusal.number()),
        Ok(asked) => {
            if OLD_MOST_INDICES < asked.indices {
                return put_number(out, 0, b"answer=", Refusal::Unreadable.number());
            }
            put_converted(out, asked, &bits, &indices)
        }
    }
}
