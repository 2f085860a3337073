// The run over the lent field and names and a lent row of entry records (document 01, "The run", 2 and 3): what crate
// `run_field` does after seeding, with the same promise, of the row's three projections. A part of the port: users call `sdf`.
#![tactic(auto)]

ghost use Rattle.std.specs.Prelude.{◌≡◌, length};
ghost use Rattle.mesh.specs.Lent.{mesh_in};
ghost use Rattle.refusals.specs.Numbers.{refusal_number};
ghost use Rattle.run.specs.Run.{run};
ghost use Rattle.run.specs.Input.{run_input};
ghost use Rattle.run_state.specs.Told.{Fit};
ghost use Rattle.entries.specs.Row.{row_distances, row_cells, row_triangles};
ghost use Rattle.run_field.specs.Running.{Leaves};
ghost use Rattle.entries_run.specs.Seeded.{begun_by, Seeded};

use grid::Grid;
use mesh::Mesh;
use queue::Entry;
use refusals::Refusal;
use run_state::Progress;
use terms::Terms;

// The counts of a run as seeding leaves it: it may be refused, and nothing has waited.
fn begun(number: u32) -> Progress
    ensures { result ≡ begun_by number }
{
    Progress {
        number: number,
        waiting: 0,
        pops: 0,
        peak: 0,
    }
}

// Steps 2 and 3, over an empty row, where seeding came to `seeded`. On a refusal the number alone says what the run
// came to.
pub fn run_row(
    grid: Grid,
    mesh: Mesh,
    field: &mut [f32],
    names: &mut [u32],
    row: &mut [Entry],
    seeded: Result<(), Refusal>,
    terms: Terms,
) -> Progress
    requires { let m = mesh_in mesh in
        Fit grid m × Seeded grid m terms.sign (refusal_number seeded) field.old names.old row.old }
    ensures { let m = mesh_in mesh.entry in
        let left = row.new in
        Leaves grid m (λ any. run (run_input grid m terms.sign (length row.old) terms.limit))
        field.new names.new (row_distances left) (row_cells left) (row_triangles left) result }
{
    if let Err(refusal) = seeded {
        return begun(refusal.number());
    }
    let at = begun(0);
    let queued = entries_queue::queue_cells(field, names, row, at);
    if queued.number != 0 {
        return queued;
    }
    entries_spread::spread(grid, mesh, field, names, row, queued, terms)
}
