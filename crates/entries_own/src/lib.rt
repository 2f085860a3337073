// A job over a row of records of the function's own, for callers that lend no row (document 01, "Choosing the form by
// place"): so that the job over records can be held to the stored sample of whole jobs. A part of the port: users call
// `sdf`, or run the job program.
#![tactic(auto)]

ghost use Rattle.mesh.specs.Lent.{mesh_in};
ghost use Rattle.std.specs.Prelude.{◌≤◌};
ghost use Rattle.job_checks.specs.Job.{job_of};
ghost use Rattle.job_outcome.specs.Outcome.{outcome};
ghost use Rattle.entries_own.specs.Own.{own_room, lent_own, GivesFour};

use grid::Grid;
use job_outcome::Answer;
use mesh::Mesh;
use queue::Entry;
use terms::Terms;

// How many entries the row has.
pub const OWN_ROOM: usize = 2048;

// The job with room for so many entries, at most what the row has.
pub fn run_records(
    grid: Grid,
    mesh: Mesh,
    field: &mut [f32],
    names: &mut [u32],
    crossings: &mut [u32],
    rows: &mut [u32],
    room: usize,
    terms: Terms,
) -> Answer
    requires { room ≤ own_room }
    ensures { let job = job_of grid (mesh_in mesh.entry) terms in
        let lent = lent_own field.old names.old crossings.old rows.old room in
        GivesFour (outcome job lent) result field.new names.new crossings.new rows.new }
{
    let none = Entry {
        distance: 0,
        cell: 0,
        triangle: 0,
    };
    let mut queue = [none; OWN_ROOM];
    entries_generate::generate_grid_sdf_records(
        grid,
        mesh,
        field,
        names,
        crossings,
        rows,
        &mut queue[..room],
        terms,
    )
}
