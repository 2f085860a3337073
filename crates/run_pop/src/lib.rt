// One step of spreading: the first of the waiting entries is taken, and its triangle is offered to the cells around its
// cell (document 01, "The run", 3). Older entries of a cell are not removed and still spread: what its cell holds by now
// is not asked when an entry is taken. A part of the port: users call `sdf`.
#![tactic(auto)]

ghost use Rattle.std.specs.Prelude.{◌≡◌, ◌<◌};
ghost use Rattle.lists.specs.Turns.{goes};
ghost use Rattle.mesh.specs.Lent.{mesh_in};
ghost use Rattle.run.specs.Run.{take_first};
ghost use Rattle.run.specs.Steps as Steps;
ghost use Rattle.run_around.specs.Around.{codes};
ghost use Rattle.run_state.specs.Told.{Fit, Holds, GoodIn, Told};

use grid::Grid;
use mesh::Mesh;
use run_state::Progress;
use terms::Terms;

// Takes the first of the waiting entries, and spreads it.
pub fn pop(
    grid: Grid,
    mesh: Mesh,
    steps: &[u16],
    field: &mut [f32],
    names: &mut [u32],
    distances: &mut [u32],
    cells: &mut [u32],
    triangles: &mut [u32],
    at: Progress,
    terms: Terms,
) -> Progress
    requires fit { Fit grid (mesh_in mesh) }
    requires holds { Holds grid field.old names.old distances.old cells.old triangles.old at.waiting }
    requires fact { let m = mesh_in mesh in
        GoodIn grid m terms.sign field.old names.old distances.old cells.old triangles.old at }
    requires steps_value { (steps.now ≡ codes Steps.steps) × (0 < at.waiting) × (at.pops < 4294967295) }
    ensures { let m = mesh_in mesh.entry in
        Told grid m terms.sign (λ g s. take_first g goes s.waiting s) field.old names.old
        distances.old cells.old triangles.old at field.new
        names.new distances.new cells.new triangles.new result }
{
    let n = at.waiting;
    let e = queue_take::take(
        distances,
        cells,
        triangles,
        n,
        mesh.topology,
        mesh.given,
        mesh.indices,
        mesh.vertices.len() / 3,
    );
    let mut to = [0u32; 27];
    let mut squares = [0.0f32; 27];
    let sign = terms.sign;
    run_around::look_around(grid, mesh, sign, steps, e, &mut to, &mut squares);
    let left = n - 1;
    let pops = at.pops + 1;
    let taken = Progress {
        number: 0,
        waiting: left,
        pops: pops,
        peak: at.peak,
    };
    run_offer::offer_around(
        field, names, distances, cells, triangles, taken, e.triangle, &to, &squares,
    )
}
