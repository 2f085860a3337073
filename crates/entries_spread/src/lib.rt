// What waits in a lent row of entry records, spread over the field. A part of the port: users call `sdf`.
#![tactic(auto)]

ghost use Rattle.std.specs.Prelude.{◌≡◌};
ghost use Rattle.mesh.specs.Lent.{mesh_in};
ghost use Rattle.run.specs.Run.{spreading};
ghost use Rattle.run_state.specs.Told.{Fit};
ghost use Rattle.entries_state.specs.Records.{HoldsRow, GoodRow, ToldRow};

use grid::Grid;
use mesh::Mesh;
use queue::Entry;
use run_state::Progress;
use terms::Terms;

// Step 3 of the run: spreads what waits, until nothing does, with at most as many pops as the limit.
pub fn spread(
    grid: Grid,
    mesh: Mesh,
    field: &mut [f32],
    names: &mut [u32],
    row: &mut [Entry],
    at: Progress,
    terms: Terms,
) -> Progress
    requires { let m = mesh_in mesh in
        Fit grid m × HoldsRow grid field.old names.old row.old at.waiting ×
        GoodRow grid m terms.sign field.old names.old row.old at × (at.number ≡ 0) × (at.pops ≡ 0) }
    ensures { let m = mesh_in mesh.entry in
        ToldRow grid m terms.sign (λ g. spreading g terms.limit) field.old names.old row.old at
        field.new names.new row.new result }
{
    let count = mesh.vertices.len() / 3;
    let mut run = at;
    while 0 < run.waiting {
        let n = run.waiting;
        run = entries_state::popped(run, terms);
        if run.number != 0 {
            break;
        }
        let e = entries_take::take(row, n, mesh.topology, mesh.given, mesh.indices, count);
        let b = entries_gather::offers(grid, mesh, field, names, e, terms);
        run = entries_push_all::push_all(row, run, b);
        if run.number != 0 {
            break;
        }
    }
    run
}
