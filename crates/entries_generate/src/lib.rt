// The whole job over a lent row of entry records (document 01, "Choosing the form by place"): what users call as
// `sdf::generate_grid_sdf_records`. The same job as in crate `job_generate`, by the same promise, of the row's three
// projections: a row has one length, so that no lengths of a queue are left to compare. A part of the port: users
// call `sdf`.
#![tactic(auto)]

ghost use Rattle.mesh.specs.Lent.{mesh_in};
ghost use Rattle.job_checks.specs.Job.{job_of};
ghost use Rattle.job_outcome.specs.Outcome.{Gives, outcome};
ghost use Rattle.entries_generate.specs.LentRow.{lent_row};

use grid::Grid;
use job_outcome::Answer;
use mesh::Mesh;
use queue::Entry;
use terms::Terms;

// Any job at all, over any lent buffers.
pub fn generate_grid_sdf_records(
    grid: Grid,
    mesh: Mesh,
    field: &mut [f32],
    names: &mut [u32],
    crossings: &mut [u32],
    rows: &mut [u32],
    queue: &mut [Entry],
    terms: Terms,
) -> Answer
    ensures { let job = job_of grid (mesh_in mesh.entry) terms in
        let lent = lent_row field.old names.old crossings.old rows.old queue.old in
        let left = lent_row field.new names.new crossings.new rows.new queue.new in
        Gives (outcome job lent) result left }
{
    let begun = job_begin::begin(
        grid,
        mesh,
        field,
        names,
        crossings.len(),
        rows.len(),
        queue.len(),
        terms,
    );
    // No `?`: the edit `refused_without_its_number` bends what is returned here.
    let seeded = match begun {
        Ok(seeded) => seeded,
        Err(refusal) => return Err(refusal),
    };
    entries::clear(queue);
    let ran = entries_run::run_row(grid, mesh, field, names, queue, seeded, terms);
    let told = job_close::close(grid, mesh, field, names, crossings, rows, terms, ran);
    let answer = job_outcome::answer_of(told);
    if ran.number == 0 {
        return answer;
    }
    entries::clear(queue);
    answer
}
