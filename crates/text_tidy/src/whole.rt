// The whole: a text is read, its mesh tidied in buffers of its size, and what came of it printed.
ghost use Rattle.std.specs.Prelude.{◌≡◌, ◌/◌, ◌<◌, ◌≤◌, length};
ghost use Rattle.lists.specs.Put.{Put};
ghost use Rattle.float_bits.specs.Patterns.{floats_of};
ghost use Rattle.text.specs.Answering.{Answered, Front};
ghost use Rattle.text.specs.Limits.{most_vertices, index_room};
ghost use Rattle.mesh.specs.Mesh.{mesh_of};
ghost use Rattle.tidy_mesh.specs.Outcome.{tidy_lent_of};
ghost use Rattle.text_tidy.specs.Tidied.{Tidies, tidy_room};
ghost use Rattle.text_tidy.specs.Parts.{held_text, left_text, RoomForLeft, RightlyLent, SmallMesh};

use crate::kept::put_kept;
use crate::lines::put_went;
use crate::{TIDY_ROOM, Went};
use listing::{coordinate_floats, fill};
use mesh::Mesh;
use text::{INDEX_ROOM, MOST_VERTICES};
use text_read_job::{Asked, coordinate_words, index_words, read_job};
use text_write::put_number;
use tidy_mesh::{Kept, tidy_mesh};

// Prints what went, and then the tidied job, from what a tidying left in its outputs.
fn put_tidied(
    out: &mut [u8],
    asked: Asked,
    kept: Kept,
    coordinates: &[f32],
    indices: &[u32],
    firsts: &[u32],
    causes: &[u32],
) -> usize
    requires { RoomForLeft asked kept (tidy_lent_of coordinates.now indices.now firsts.now causes.now) out.old }
    ensures { let left = tidy_lent_of coordinates.now indices.now firsts.now causes.now in
        Put out.old 0 (left_text asked kept left) out.new result }
{
    let merged = put_went(out, 0, Went::Merged, firsts);
    let dropped = put_went(out, merged, Went::Dropped, causes);
    put_kept(out, dropped, asked, kept, coordinates, indices)
}

// Tidies the mesh of a job over outputs of its size, and prints what came of it.
fn tidy_lent(
    asked: Asked,
    vertices: &[f32],
    indices: &[u32],
    coordinates: &mut [f32],
    explicit: &mut [u32],
    firsts: &mut [u32],
    causes: &mut [u32],
    out: &mut [u8],
) -> usize
    requires { let m = mesh_of vertices.now asked.head.topology asked.given indices.now in
        RightlyLent m (tidy_lent_of coordinates.old explicit.old firsts.old causes.old) out.old }
    ensures { Put out.old 0 (held_text asked vertices.now indices.now) out.new result }
{
    let head = asked.head;
    let mesh = Mesh {
        vertices,
        topology: head.topology,
        given: asked.given,
        indices,
    };
    let answer = tidy_mesh(mesh, coordinates, explicit, firsts, causes);
    match answer {
        Ok(kept) => put_tidied(out, asked, kept, coordinates, explicit, firsts, causes),
        Err(refusal) => put_number(out, 0, b"answer=", refusal.number()),
    }
}

// Buffers for what is said of each vertex, and of each triangle, of as many as the program takes.
fn vertex_words() -> [u32; MOST_VERTICES as usize]
    ensures { most_vertices ≡ length result }
{
    [0; MOST_VERTICES as usize]
}

fn triangle_words() -> [u32; INDEX_ROOM / 3]
    ensures { index_room / 3 ≡ length result }
{
    [0; INDEX_ROOM / 3]
}

// Tidies a job within the program's limits, of these coordinates' bits and indices, in buffers of its own.
fn tidy_asked(asked: Asked, bits: &[u32], indices: &[u32], out: &mut [u8]) -> usize
    requires { SmallMesh asked bits.now indices.now out.old }
    ensures { let held = held_text asked (floats_of bits.now) indices.now in
        Put out.old 0 held out.new result }
{
    let head = asked.head;
    let topology = head.topology;
    let given = asked.given;
    let n = bits.len();
    let vertices = n / 3;
    let triangles = mesh_topology::triangle_count(topology, given, indices, vertices);
    let corners = 3 * triangles;
    let mut floats_room = coordinate_floats();
    let floats = &mut floats_room[..n];
    fill(bits, floats);
    let mut coordinates = coordinate_floats();
    let mut explicit = index_words();
    let mut firsts = vertex_words();
    let mut causes = triangle_words();
    tidy_lent(
        asked,
        floats,
        indices,
        &mut coordinates[..n],
        &mut explicit[..corners],
        &mut firsts[..vertices],
        &mut causes[..triangles],
        out,
    )
}

// Tidies a text: puts what went and the text of the tidied job at the front of `out`, or `answer=` and the number by which
// its mesh is refused, or `answer=9` where it is the text of no job within the job program's limits, and tells how many bytes
// that are. `out` must have room for the longest of these, 65,536 bytes: else nothing is put.
pub fn tidy_text(text: &[u8], out: &mut [u8]) -> usize
    ensures front { Front result out.new }
    ensures answered { tidy_room ≤ length out.old
        → Answered Tidies text.now out.old out.new result }
    ensures value { length out.old < tidy_room → (result ≡ 0) × (out.new ≡ out.old) }
{
    if out.len() < TIDY_ROOM {
        return 0;
    }
    let mut bits = coordinate_words();
    let mut indices = index_words();
    match read_job(text, &mut bits, &mut indices) {
        Err(no_job) => put_number(out, 0, b"answer=", no_job.number()),
        Ok(asked) => {
            let n = 3 * asked.vertices;
            let k = asked.indices;
            tidy_asked(asked, &bits[..n], &indices[..k], out)
        }
    }
}
