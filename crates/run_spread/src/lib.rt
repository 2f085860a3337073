// Spreading: the waiting entries are taken one after the other, until none waits (document 01, "The run", 3). A part of the
// port: users call `sdf`.
#![tactic(auto)]

ghost use Rattle.std.specs.Prelude.{◌≡◌};
ghost use Rattle.mesh.specs.Lent.{mesh_in};
ghost use Rattle.run.specs.Run.{spreading};
ghost use Rattle.run_state.specs.Told.{Fit, Holds, GoodIn, Told};

use grid::Grid;
use mesh::Mesh;
use run_state::Progress;
use terms::Terms;

// Step 3 of the run: spreads what waits, until nothing does, with at most as many pops as the limit.
pub fn spread(
    grid: Grid,
    mesh: Mesh,
    field: &mut [f32],
    names: &mut [u32],
    distances: &mut [u32],
    cells: &mut [u32],
    triangles: &mut [u32],
    at: Progress,
    terms: Terms,
) -> Progress
    requires fit { Fit grid (mesh_in mesh) }
    requires holds { Holds grid field.old names.old distances.old cells.old triangles.old at.waiting }
    requires fact { let m = mesh_in mesh in
        GoodIn grid m terms.sign field.old names.old distances.old cells.old triangles.old at }
    requires number_value { (at.number ≡ 0) × (at.pops ≡ 0) }
    ensures { let m = mesh_in mesh.entry in
        Told grid m terms.sign (λ g. spreading g terms.limit)
        field.old names.old distances.old cells.old triangles.old at
        field.new names.new distances.new cells.new triangles.new result }
{
    let steps = run_around::STEPS;
    let mut run = at;
    while 0 < run.waiting {
        if run.pops == terms.limit {
            return run.refused(8);
        }
        run = run_pop::pop(
            grid, mesh, &steps, field, names, distances, cells, triangles, run, terms,
        );
        if run.number != 0 {
            return run;
        }
    }
    run
}
