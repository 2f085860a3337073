// A job that is not refused before its run: it runs over buffers that are cleared first, and is then finished, or
// cleared again. A part of the port: users call `sdf`.
#![tactic(auto)]

ghost use Rattle.std.specs.Prelude.{◌≡◌};
ghost use Rattle.mesh.specs.Lent.{mesh_in};
ghost use Rattle.run_state.specs.Told.{Fit};
ghost use Rattle.job_checks.specs.Job.{job_of, lent_of};
ghost use Rattle.job_checks.specs.Refusals.{refusal};
ghost use Rattle.run_field.specs.Running.{Fresh};
ghost use Rattle.job_outcome.specs.Outcome.{Gives, ended, run_of};
ghost use Rattle.job_outcome.specs.Finished.{Long};

use grid::Grid;
use job_outcome::Answer;
use mesh::Mesh;
use terms::Terms;

// A job over buffers that are cleared.
fn cleared_job(
    grid: Grid,
    mesh: Mesh,
    field: &mut [f32],
    names: &mut [u32],
    crossings: &mut [u32],
    rows: &mut [u32],
    distances: &mut [u32],
    cells: &mut [u32],
    triangles: &mut [u32],
    terms: Terms,
) -> Answer
    requires fit { Fit grid (mesh_in mesh) }
    requires fresh { Fresh grid field.old names.old distances.old cells.old triangles.old }
    requires long { Long grid crossings.old rows.old }
    ensures { let job = job_of grid (mesh_in mesh.entry) terms in
        let lent = lent_of field.old names.old crossings.old rows.old
        distances.old cells.old triangles.old in
        let left = lent_of field.new names.new crossings.new rows.new
        distances.new cells.new triangles.new in
        Gives (ended job lent (run_of job lent)) result left }
{
    let ran = run_field::run_field(grid, mesh, field, names, distances, cells, triangles, terms);
    let told = job_conclude::conclude(
        grid, mesh, field, names, crossings, rows, distances, cells, triangles, terms, ran,
    );
    job_outcome::answer_of(told)
}

// A job that is not refused before the run.
pub fn accepted_job(
    grid: Grid,
    mesh: Mesh,
    field: &mut [f32],
    names: &mut [u32],
    crossings: &mut [u32],
    rows: &mut [u32],
    distances: &mut [u32],
    cells: &mut [u32],
    triangles: &mut [u32],
    terms: Terms,
) -> Answer
    requires { let job = job_of grid (mesh_in mesh) terms in
        let lent = lent_of field.old names.old crossings.old rows.old distances.old cells.old triangles.old in
        refusal job lent ≡ 0 }
    ensures { let job = job_of grid (mesh_in mesh.entry) terms in
        let lent = lent_of field.old names.old crossings.old rows.old
        distances.old cells.old triangles.old in
        let left = lent_of field.new names.new crossings.new rows.new
        distances.new cells.new triangles.new in
        Gives (ended job lent (run_of job lent)) result left }
{
    job_clear::clear_all(field, names, crossings, rows, distances, cells, triangles);
    cleared_job(
        grid, mesh, field, names, crossings, rows, distances, cells, triangles, terms,
    )
}
