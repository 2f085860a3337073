// The offers of a pop, made over the field and the names alone: what is to be queued comes back as a batch. A part
// of the port: users call `sdf`.
#![tactic(auto)]

ghost use Rattle.std.specs.Prelude.{◌≡◌, length};
ghost use Rattle.grid.specs.Index.{total};
ghost use Rattle.mesh.specs.Mesh.{triangles_in};
ghost use Rattle.mesh.specs.Lent.{mesh_in};
ghost use Rattle.run_state.specs.Told.{Ready, Known};
ghost use Rattle.run_around.specs.Around.{PlacesFit};
ghost use Rattle.entries_gather.specs.Gathered.{BatchGathered, PopOffered};

use entries_batch::Batch;
use grid::Grid;
use mesh::Mesh;
use queue::Entry;
use terms::Terms;

// All offers of triangle k, to where the 27 steps lead.
fn gather(field: &mut [f32], names: &mut [u32], k: u32, to: &[u32], squares: &[f32]) -> Batch
    requires { PlacesFit to.now squares.now field.old names.old }
    ensures { BatchGathered k to.now squares.now field.old names.old
        field.new names.new result }
{
    let mut cells = [0u32; 27];
    let mut distances = [0u32; 27];
    let mut count = 0;
    for j in 0..27 {
        let taken = match entries_consider::consider(field, names, k, to[j], squares[j]) {
            Ok(taken) => taken,
            Err(refusal) => {
                return Batch {
                    number: refusal.number(),
                    count: count,
                    triangle: k,
                    cells: cells,
                    distances: distances,
                };
            }
        };
        if let Some(distance) = taken {
            cells[count] = to[j];
            distances[count] = distance;
            count += 1;
        }
    }
    Batch {
        number: 0,
        count: count,
        triangle: k,
        cells: cells,
        distances: distances,
    }
}

// The triangle of e is offered to the cells around.
pub fn offers(
    grid: Grid,
    mesh: Mesh,
    field: &mut [f32],
    names: &mut [u32],
    e: Entry,
    terms: Terms,
) -> Batch
    requires { let m = mesh_in mesh in
        Ready grid m × Known (total grid) (length (triangles_in m)) e × (length field.old ≡ total grid) ×
        (length names.old ≡ total grid) }
    ensures { let m = mesh_in mesh.entry in
        PopOffered grid m terms.sign e field.old names.old field.new names.new result }
{
    let steps = run_around::STEPS;
    let mut to = [0u32; 27];
    let mut squares = [0.0f32; 27];
    let sign = terms.sign;
    run_around::look_around(grid, mesh, sign, &steps, e, &mut to, &mut squares);
    gather(field, names, e.triangle, &to, &squares)
}
