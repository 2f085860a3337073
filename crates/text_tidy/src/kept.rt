// What is kept of a mesh, as the text of a job.
ghost use Rattle.std.specs.Prelude.{◌≡◌};
ghost use Rattle.lists.specs.Put.{Put};
ghost use Rattle.text.specs.TextJob.{job_text};
ghost use Rattle.text_tidy.specs.Parts.{kept_asked, kept_job, RoomForKept};

use crate::patterns::fill_bits;
use mesh_topology::Indices;
use text_read_job::{Asked, coordinate_words};
use text_write_job::put_job;
use tidy_mesh::Kept;

// The record of a job with as many vertices and explicit indices as are kept. Its other lines are those of `asked`.
fn kept_asked(asked: Asked, kept: Kept) -> Asked
    ensures { result ≡ kept_asked asked kept }
{
    let head = asked.head;
    let tail = asked.tail;
    Asked {
        head,
        vertices: kept.vertices as usize,
        given: Indices::Given,
        indices: 3 * (kept.triangles as usize),
        tail,
    }
}

// The text of that job, from `at` on.
pub fn put_kept(
    out: &mut [u8],
    at: usize,
    asked: Asked,
    kept: Kept,
    coordinates: &[f32],
    indices: &[u32],
) -> usize
    requires { RoomForKept asked kept coordinates.now indices.now at out.old }
    ensures { let j = kept_job asked kept coordinates.now indices.now in
        Put out.old at (job_text j) out.new result }
{
    let mut bits = coordinate_words();
    let n = coordinates.len();
    fill_bits(coordinates, &mut bits[..n]);
    let tidied = kept_asked(asked, kept);
    at + put_job(&mut out[at..], tidied, &bits, indices)
}
