// The crossing counts: for each cell and axis the number of triangles whose hit reaches the cell (document 01, "The
// run", 4); and how many rays graze a triangle, over all (document 02, §3). The triangle is outside and the lines are
// inside, so that what depends on the triangle alone, or on the triangle and one of a line's two numbers, is worked out
// once. A part of the port: users call `sdf`. `run_cross_lines` says which cells a line along an axis has,
// `run_cross_marks` which lines of a row may be hit or grazed, `run_cross_hits` counts them, `run_cross_rows` takes the
// rows one after the other, and `run_cross_back` sums what the quick pass has marked back along the lines.
#![tactic(auto)]

ghost use Rattle.std.specs.Prelude.{◌≡◌, true, ◌*◌, ◌≤◌, length, replicate};
ghost use Rattle.grid.specs.Index.{total};
ghost use Rattle.grid.specs.Bounds.{in_bounds};
ghost use Rattle.mesh.specs.Mesh.{triangles_in, Sound};
ghost use Rattle.mesh.specs.Lent.{mesh_in};
ghost use Rattle.run.specs.Signs.{all_crossings};
ghost use Rattle.run.specs.Grazed.{grazed_on, grazed};
ghost use Rattle.slices.specs.Counts.{Room};
ghost use Rattle.run_cross_lines.specs.Pass.{Grown, axis_crossed, hit_on, crossed_by, Counted, grazed_by};

use grid::Grid;
use mesh::{Corners, Mesh};
use point::Axis;
use terms::Pass;

// The lines along the axis, against a triangle. Tells how many graze it.
fn cross_along(
    grid: Grid,
    axis: Axis,
    t: Corners,
    z0: &mut [f32],
    z1: &mut [f32],
    z2: &mut [f32],
    flags: &mut [bool],
    crossings: &mut [u32],
    pass: Pass,
) -> u64
    requires grid_value { in_bounds grid ≡ true }
    requires in_bounds { (1024 ≤ length z0.old) × (1024 ≤ length z1.old) × (1024 ≤ length z2.old) ×
        (1024 ≤ length flags.old) }
    requires crossings_len { length crossings.old ≡ 3 * total grid }
    requires room { Room 3 crossings.old }
    ensures grown { Grown grid (axis_crossed pass grid axis (hit_on grid t axis)) crossings.old crossings.new }
    ensures value { result ≡ grazed_on grid axis (hit_on grid t axis) }
{
    let cast = geo_ray::cast_of(axis, t.a, t.b, t.c);
    run_cross_marks::fill_across(grid, run_cross_lines::second(axis), cast, z0, z1, z2);
    run_cross_rows::cross_rows(grid, axis, cast, z0, z1, z2, flags, crossings, pass)
}

// The lines along all three axes.
fn cross_triangle(
    grid: Grid,
    t: Corners,
    z0: &mut [f32],
    z1: &mut [f32],
    z2: &mut [f32],
    flags: &mut [bool],
    crossings: &mut [u32],
    pass: Pass,
) -> u64
    requires grid_value { in_bounds grid ≡ true }
    requires in_bounds { (1024 ≤ length z0.old) × (1024 ≤ length z1.old) × (1024 ≤ length z2.old) ×
        (1024 ≤ length flags.old) }
    requires crossings_len { length crossings.old ≡ 3 * total grid }
    requires room { Room 5 crossings.old }
    ensures grown { Grown grid (crossed_by pass grid t) crossings.old crossings.new }
    ensures value { result ≡ grazed_by grid t }
{
    let x = cross_along(grid, Axis::X, t, z0, z1, z2, flags, crossings, pass);
    let y = cross_along(grid, Axis::Y, t, z0, z1, z2, flags, crossings, pass);
    let z = cross_along(grid, Axis::Z, t, z0, z1, z2, flags, crossings, pass);
    x + y + z
}

// All triangles, one after the other.
fn cross_all(
    grid: Grid,
    mesh: Mesh,
    z0: &mut [f32],
    z1: &mut [f32],
    z2: &mut [f32],
    flags: &mut [bool],
    crossings: &mut [u32],
    pass: Pass,
) -> u64
    requires grid_value { in_bounds grid ≡ true }
    requires sound { Sound (mesh_in mesh) }
    requires indices_len_bound { length (triangles_in (mesh_in mesh)) ≤ 131072 }
    requires in_bounds { (1024 ≤ length z0.old) × (1024 ≤ length z1.old) × (1024 ≤ length z2.old) ×
        (1024 ≤ length flags.old) }
    requires crossings_value { crossings.old ≡ replicate (3 * total grid) 0 }
    ensures fact { let m = mesh_in mesh.entry in
        Counted pass grid m (length (triangles_in m)) crossings.new }
    ensures value { result ≡ grazed grid (mesh_in mesh.entry) }
{
    let n = mesh::triangle_count(mesh);
    let mut total: u64 = 0;
    for k in 0..n {
        let t = mesh::corners_at(mesh, k);
        total += cross_triangle(grid, t, z0, z1, z2, flags, crossings, pass);
    }
    total
}

// The whole pass, plain or quick: what it leaves and what it tells does not depend on which. Tells how many rays graze a
// triangle, over all. The crossings may hold anything before. The room for a row of lines is made here, once, and lent
// down.
pub fn cross(grid: Grid, mesh: Mesh, crossings: &mut [u32], pass: Pass) -> u64
    requires grid_value { in_bounds grid ≡ true }
    requires sound { Sound (mesh_in mesh) }
    requires indices_len_bound { length (triangles_in (mesh_in mesh)) ≤ 131072 }
    requires crossings_len { length crossings.old ≡ 3 * total grid }
    ensures crossings_after { let m = mesh_in mesh.entry in
        crossings.new ≡ all_crossings grid m }
    ensures value { result ≡ grazed grid (mesh_in mesh.entry) }
{
    crossings.fill(0);
    let mut z0 = [0.0f32; 1024];
    let mut z1 = [0.0f32; 1024];
    let mut z2 = [0.0f32; 1024];
    let mut flags = [false; 1024];
    let grazed = cross_all(
        grid, mesh, &mut z0, &mut z1, &mut z2, &mut flags, crossings, pass,
    );
    match pass {
        Pass::Plain => {}
        Pass::Quick => run_cross_back::sum_back(grid, crossings),
    }
    grazed
}
