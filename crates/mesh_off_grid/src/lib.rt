// Whether a triangle lies off the grid: refusal 10 (document 02, §6). Snapping would bring such a triangle to the
// outermost cells, and it would shape them. A part of the port: users call `sdf`.
#![tactic(auto)]

ghost use Rattle.std.specs.Prelude.{◌≡◌};
ghost use Rattle.mesh.specs.Mesh.{Sound};
ghost use Rattle.mesh.specs.Lent.{mesh_in};
ghost use Rattle.mesh_off_grid.specs.OffGrid as OffGrid;

use grid::{BoundingBox, Grid};
use mesh::{Corners, Mesh};

// Whether three coordinates on an axis are all below low, or all above high. One that touches is neither.
fn beyond(low: f32, high: f32, a: f32, b: f32, c: f32) -> bool
    ensures { result ≡ OffGrid.beyond_one_side low high a b c }
{
    ((a < low) & (b < low) & (c < low)) | ((high < a) & (high < b) & (high < c))
}

// Whether that is so of a triangle's corners on some axis of a box.
fn off_box(filled: BoundingBox, t: Corners) -> bool
    ensures { result ≡ OffGrid.off_box filled t }
{
    let low = filled.min;
    let high = filled.max;
    let x = beyond(low.x, high.x, t.a.x, t.b.x, t.c.x);
    let y = beyond(low.y, high.y, t.a.y, t.b.y, t.c.y);
    let z = beyond(low.z, high.z, t.a.z, t.b.z, t.c.z);
    x | y | z
}

// Whether no triangle of the mesh lies off the grid. Where one does, refusal 10.
pub fn all_on_grid(grid: Grid, mesh: Mesh) -> bool
    requires { Sound (mesh_in mesh) }
    ensures { let m = mesh_in mesh.entry in
        result ≡ OffGrid.all_on_grid grid m }
{
    let filled = grid::parts::get_bounding_box(grid);
    let n = mesh::triangle_count(mesh);
    for k in 0..n {
        let t = mesh::corners_at(mesh, k);
        let off = off_box(filled, t);
        if off {
            return false;
        }
    }
    true
}
