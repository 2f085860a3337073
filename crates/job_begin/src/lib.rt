// What comes before the queue is filled (document 01, "Reply numbers", and "The run", 1): the refusals that change
// nothing, then the field and the names cleared and seeded. A part of the port: users call `sdf`.
#![tactic(auto)]

ghost use Rattle.mesh.specs.Lent.{mesh_in};
ghost use Rattle.job_begin.specs.Begins.{Begins};

use grid::Grid;
use job_checks::Lengths;
use mesh::Mesh;
use refusals::Refusal;
use terms::Terms;

// What it came to: refused before anything was changed, or what seeding told.
pub type Begun = Result<Result<(), Refusal>, Refusal>;

// Of a queue whose buffers are all `room` long; `crossings` and `rows` are the lengths of those buffers.
pub fn begin(
    grid: Grid,
    mesh: Mesh,
    field: &mut [f32],
    names: &mut [u32],
    crossings: usize,
    rows: usize,
    room: usize,
    terms: Terms,
) -> Begun
    ensures { let m = mesh_in mesh.entry in
        Begins grid m terms.sign terms.edition crossings rows room field.old names.old field.new
        names.new result }
{
    let lengths = Lengths {
        field: field.len(),
        names: names.len(),
        crossings: crossings,
        rows: rows,
        distances: room,
        cells: room,
        triangles: room,
    };
    let edition = terms.edition;
    job_checks::first_refusal(grid, edition, mesh, lengths)?;
    job_clear::fill_field(field);
    names.fill(4_294_967_295);
    let sign = terms.sign;
    let seeded = run_seed::seed(field, names, grid, mesh, sign);
    Ok(seeded)
}
