// What follows the run, and the queue with it. A part of the port: users call `sdf`.
#![tactic(auto)]

ghost use Rattle.lists.specs.Turns.{told};
ghost use Rattle.mesh.specs.Lent.{mesh_in};
ghost use Rattle.run_state.specs.Told.{order_in, state_of, Fit, Ran};
ghost use Rattle.job_checks.specs.Job.{job_of, lent_of};
ghost use Rattle.job_outcome.specs.Outcome.{GivesReply, reply_told, ended};
ghost use Rattle.job_outcome.specs.Finished.{Long};

use grid::Grid;
use job_outcome::Tally;
use mesh::Mesh;
use run_state::Progress;
use terms::Terms;

// After the run, which came to `ran`: `close`, and the queue: a refusal clears it too, and a run that is done left it
// empty. The answer is told as `close` tells it, a refusal by the run's number, whichever that is.
pub fn conclude(
    grid: Grid,
    mesh: Mesh,
    field: &mut [f32],
    names: &mut [u32],
    crossings: &mut [u32],
    rows: &mut [u32],
    distances: &mut [u32],
    cells: &mut [u32],
    triangles: &mut [u32],
    terms: Terms,
    ran: Progress,
) -> Result<Tally, u32>
    requires fit { Fit grid (mesh_in mesh) }
    requires ran { Ran grid field.old names.old distances.old cells.old triangles.old ran }
    requires long { Long grid crossings.old rows.old }
    ensures { let job = job_of grid (mesh_in mesh.entry) terms in
        let lent = lent_of field.old names.old crossings.old rows.old
        distances.old cells.old triangles.old in
        let left = lent_of field.new names.new crossings.new rows.new
        distances.new cells.new triangles.new in
        let m = mesh_in mesh.entry in
        let state = state_of (order_in m) field.old names.old distances.old cells.old
        triangles.old ran in
        GivesReply (ended job lent (told ran.number state)) (reply_told result) left }
{
    let answer = job_close::close(grid, mesh, field, names, crossings, rows, terms, ran);
    if ran.number != 0 {
        queue::clear(distances, cells, triangles);
    }
    answer
}
