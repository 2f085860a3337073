// The whole job for C, over three arrays or over a row of records: `sdf::generate_grid_sdf` and
// `sdf::generate_grid_sdf_records`, with the answer as a record. A slice is two parameters in C, a pointer and a count.
ghost use Rattle.c_records.specs.C.{grid_in, terms_in};
ghost use Rattle.mesh.specs.Mesh.{mesh_of};
ghost use Rattle.job_checks.specs.Job.{job_of, lent_of};
ghost use Rattle.job_outcome.specs.Outcome.{outcome};
ghost use Rattle.entries_generate.specs.LentRow.{lent_row};
ghost use Rattle.c_job.specs.Job.{topology_in, indices_in, GivesC};

use c_job::{SdfJobAnswer, answer_out, indices_in, topology_in};
use c_records::{SdfGrid, SdfTerms};
use sdf::{Entry, Mesh};

// `topology` is 0 for a list and any other number for a strip, which is refused by 13; `given` is 0 where there are no
// indices.
pub fn sdf_generate_grid_sdf(
    grid: SdfGrid,
    vertices: &[f32],
    topology: u32,
    given: u32,
    indices: &[u32],
    field: &mut [f32],
    names: &mut [u32],
    crossings: &mut [u32],
    rows: &mut [u32],
    distances: &mut [u32],
    cells: &mut [u32],
    triangles: &mut [u32],
    terms: SdfTerms,
) -> SdfJobAnswer
    ensures { let job = job_of (grid_in grid) (mesh_of vertices.now (topology_in topology) (indices_in given) indices.now)
        (terms_in terms) in
        let lent = lent_of field.old names.old crossings.old rows.old
        distances.old cells.old triangles.old in
        let left = lent_of field.new names.new crossings.new rows.new
        distances.new cells.new triangles.new in
        GivesC (outcome job lent) result left }
{
    let mesh = Mesh {
        vertices,
        topology: topology_in(topology),
        given: indices_in(given),
        indices,
    };
    answer_out(sdf::generate_grid_sdf(
        grid.into(),
        mesh,
        field,
        names,
        crossings,
        rows,
        distances,
        cells,
        triangles,
        terms.into(),
    ))
}

// The same with the queue as a row of records.
pub fn sdf_generate_grid_sdf_records(
    grid: SdfGrid,
    vertices: &[f32],
    topology: u32,
    given: u32,
    indices: &[u32],
    field: &mut [f32],
    names: &mut [u32],
    crossings: &mut [u32],
    rows: &mut [u32],
    queue: &mut [Entry],
    terms: SdfTerms,
) -> SdfJobAnswer
    ensures { let job = job_of (grid_in grid) (mesh_of vertices.now (topology_in topology) (indices_in given) indices.now)
        (terms_in terms) in
        let lent = lent_row field.old names.old crossings.old rows.old queue.old in
        let left = lent_row field.new names.new crossings.new rows.new queue.new in
        GivesC (outcome job lent) result left }
{
    let at = grid.into();
    let mesh = Mesh {
        vertices,
        topology: topology_in(topology),
        given: indices_in(given),
        indices,
    };
    let asked = terms.into();
    let answer = sdf::generate_grid_sdf_records(
        at, mesh, field, names, crossings, rows, queue, asked,
    );
    answer_out(answer)
}
