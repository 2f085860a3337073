// What follows the run (document 01, "The run", 4), but for the queue. A part of the port: users call `sdf`.
#![tactic(auto)]

ghost use Rattle.std.specs.Prelude.{◌≡◌, ◌*◌, length};
ghost use Rattle.grid.specs.Index.{total};
ghost use Rattle.mesh.specs.Lent.{mesh_in};
ghost use Rattle.run.specs.Method.{field_by, crossings_by, grazed_by};
ghost use Rattle.run_state.specs.Told.{Fit};
ghost use Rattle.job_outcome.specs.Finished.{Long, Finished, Closed};

use grid::Grid;
use job_outcome::Tally;
use mesh::Mesh;
use run_state::Progress;
use terms::{SignMethod, Terms};

// The crossings and the signs, by the method. Tells how often a ray grazed a triangle. With Normal signs there are no rays:
// the distances have their signs, and the crossings are left zero.
fn sign_field(grid: Grid, mesh: Mesh, field: &mut [f32], crossings: &mut [u32], terms: Terms) -> u64
    requires fit { Fit grid (mesh_in mesh) }
    requires field_len { (length field.old ≡ total grid) × (length crossings.old ≡ 3 * total grid) }
    ensures { let m = mesh_in mesh.entry in
        (field.new ≡ field_by terms.sign grid m field.old) ×
        (crossings.new ≡ crossings_by terms.sign grid m) × (result ≡ grazed_by terms.sign grid m) }
{
    let sign = terms.sign;
    match sign {
        SignMethod::Raycast => {
            let pass = terms.pass;
            let grazed = run_cross::cross(grid, mesh, crossings, pass);
            run_signs::sign(crossings, field);
            grazed
        }
        SignMethod::Normal => {
            crossings.fill(0);
            0
        }
    }
}

// What follows a run that is not refused: the crossings, the signs and the rows. Tells how often a ray grazed a triangle.
fn finish(
    grid: Grid,
    mesh: Mesh,
    field: &mut [f32],
    crossings: &mut [u32],
    rows: &mut [u32],
    terms: Terms,
) -> u64
    requires fit { Fit grid (mesh_in mesh) }
    requires field_len { length field.old ≡ total grid }
    requires long { Long grid crossings.old rows.old }
    ensures fact { let m = mesh_in mesh.entry in
        Finished grid m terms.sign terms.edition field.old field.new crossings.new
        rows.new }
    ensures value { result ≡ grazed_by terms.sign grid (mesh_in mesh.entry) }
{
    let grazed = sign_field(grid, mesh, field, crossings, terms);
    let edition = terms.edition;
    run_rows::count_rows(edition, grid, field, rows);
    grazed
}

// After the run, which came to `ran`: a refusal clears what it left, else the field is signed and counted. The queue
// is left to the caller. The run may be any, so a refusal is handed on by its number as it is told: no `Refusal` has every
// number. Who closes a run that ends by 0, 6, 7 or 8 alone has the answer by `job_outcome::answer_of`.
pub fn close(
    grid: Grid,
    mesh: Mesh,
    field: &mut [f32],
    names: &mut [u32],
    crossings: &mut [u32],
    rows: &mut [u32],
    terms: Terms,
    ran: Progress,
) -> Result<Tally, u32>
    requires { let m = mesh_in mesh in
        Fit grid m × (length field.old ≡ total grid) × Long grid crossings.old rows.old }
    ensures { let m = mesh_in mesh.entry in
        Closed grid m terms.sign terms.edition ran field.old names.old crossings.old
        rows.old
        field.new names.new crossings.new rows.new result }
{
    if ran.number != 0 {
        job_clear::clear_fields(field, names, crossings, rows);
        return Err(ran.number);
    }
    let grazed = finish(grid, mesh, field, crossings, rows, terms);
    Ok(Tally {
        pops: ran.pops,
        peak: ran.peak,
        grazed,
    })
}
