// The whole job, with its refusals (document 01, "Reply numbers" and "The run"): what users call as
// `sdf::generate_grid_sdf`. It is refused before anything is changed, or accepted and run. A part of the port:
// users call `sdf`.
#![tactic(auto)]

ghost use Rattle.mesh.specs.Lent.{mesh_in};
ghost use Rattle.job_checks.specs.Job.{job_of, lent_of};
ghost use Rattle.job_outcome.specs.Outcome.{Gives, outcome};

use grid::Grid;
use job_checks::Lengths;
pub use job_outcome::{Answer, Tally};
use mesh::Mesh;
use terms::Terms;

// Any job at all, over any lent buffers.
pub fn generate_grid_sdf(
    grid: Grid,
    mesh: Mesh,
    field: &mut [f32],
    names: &mut [u32],
    crossings: &mut [u32],
    rows: &mut [u32],
    distances: &mut [u32],
    cells: &mut [u32],
    triangles: &mut [u32],
    terms: Terms,
) -> Answer
    ensures { let job = job_of grid (mesh_in mesh.entry) terms in
        let lent = lent_of field.old names.old crossings.old rows.old
        distances.old cells.old triangles.old in
        let left = lent_of field.new names.new crossings.new rows.new
        distances.new cells.new triangles.new in
        Gives (outcome job lent) result left }
{
    let lengths = Lengths {
        field: field.len(),
        names: names.len(),
        crossings: crossings.len(),
        rows: rows.len(),
        distances: distances.len(),
        cells: cells.len(),
        triangles: triangles.len(),
    };
    let edition = terms.edition;
    // No `?`: the edit `refused_without_its_number` bends what is returned here.
    if let Err(refusal) = job_checks::first_refusal(grid, edition, mesh, lengths) {
        return Err(refusal);
    }
    job_accept::accepted_job(
        grid, mesh, field, names, crossings, rows, distances, cells, triangles, terms,
    )
}
