// The run over the lent field, names and queue (document 01, "The run", 1 to 3): seeding, then queueing,
// then spreading. A part of the port: users call `sdf`.
#![tactic(auto)]

ghost use Rattle.std.specs.Prelude.{length};
ghost use Rattle.lists.specs.Turns.{and_then};
ghost use Rattle.mesh.specs.Lent.{mesh_in};
ghost use Rattle.run.specs.Run.{queueing, spreading, run};
ghost use Rattle.run.specs.Input.{run_input};
ghost use Rattle.run_state.specs.Told.{Fit, Holds, GoodIn};
ghost use Rattle.run_field.specs.Running.{Leaves, Fresh, before, seeded};

use grid::Grid;
use mesh::Mesh;
use run_state::Progress;
use terms::Terms;

// Steps 2 and 3, over a field that is seeded and an empty queue.
fn spread_seeds(
    grid: Grid,
    mesh: Mesh,
    field: &mut [f32],
    names: &mut [u32],
    distances: &mut [u32],
    cells: &mut [u32],
    triangles: &mut [u32],
    terms: Terms,
) -> Progress
    requires fit { Fit grid (mesh_in mesh) }
    requires holds { Holds grid field.old names.old distances.old cells.old triangles.old 0 }
    requires fact { let m = mesh_in mesh in
        GoodIn grid m terms.sign field.old names.old distances.old cells.old triangles.old before }
    ensures { let m = mesh_in mesh.entry in
        let input = run_input grid m terms.sign (length distances.old) in
        let s = seeded m field.old names.old distances.old cells.old triangles.old in
        Leaves grid m (λ any. and_then (queueing (input any) s) (spreading (input any) terms.limit))
        field.new names.new distances.new cells.new triangles.new result }
{
    let begun = Progress {
        number: 0,
        waiting: 0,
        pops: 0,
        peak: 0,
    };
    let queued = run_queue::queue_cells(field, names, distances, cells, triangles, begun);
    if queued.number != 0 {
        return queued;
    }
    run_spread::spread(
        grid, mesh, field, names, distances, cells, triangles, queued, terms,
    )
}

// The whole run. On a refusal the number alone says what it came to.
pub fn run_field(
    grid: Grid,
    mesh: Mesh,
    field: &mut [f32],
    names: &mut [u32],
    distances: &mut [u32],
    cells: &mut [u32],
    triangles: &mut [u32],
    terms: Terms,
) -> Progress
    requires fit { Fit grid (mesh_in mesh) }
    requires fresh { Fresh grid field.old names.old distances.old cells.old triangles.old }
    ensures { let m = mesh_in mesh.entry in
        Leaves grid m (λ any. run (run_input grid m terms.sign (length distances.old) terms.limit))
        field.new names.new distances.new cells.new triangles.new result }
{
    let sign = terms.sign;
    match run_seed::seed(field, names, grid, mesh, sign) {
        Ok(()) => spread_seeds(grid, mesh, field, names, distances, cells, triangles, terms),
        Err(refusal) => Progress {
            number: refusal.number(),
            waiting: 0,
            pops: 0,
            peak: 0,
        },
    }
}
