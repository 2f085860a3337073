// The cells around a cell: where the 27 steps lead from it, and the signed squares of a triangle's
// distance from there (document 01, "The run", 3). A part of the port: users call `sdf`.
#![tactic(auto)]

ghost use Rattle.std.specs.Prelude.{◌≡◌, true, ◌<◌, length};
ghost use Rattle.grid.specs.Bounds.{in_bounds};
ghost use Rattle.grid.specs.Index.{Inside, total};
ghost use Rattle.mesh.specs.Mesh.{triangles_in};
ghost use Rattle.mesh.specs.Lent.{mesh_in};
ghost use Rattle.run.specs.Steps as Steps;
ghost use Rattle.run_around.specs.Around.{shift_of, codes, step_of, spot_of, Gathered, Around};
ghost use Rattle.run_state.specs.Told.{Ready, Known};

use grid::{Cell, Grid};
use mesh::Mesh;
use queue::Entry;
use terms::SignMethod;

// The table of steps: a hexadecimal digit for each of x, y and z, with 0, 1 and 2 for -1, 0 and 1.
pub const STEPS: [u16; 27] = [
    0x000, 0x001, 0x002, 0x010, 0x011, 0x012, 0x020, 0x021, 0x022, 0x100, 0x101, 0x102, 0x110,
    0x111, 0x112, 0x120, 0x121, 0x122, 0x200, 0x201, 0x202, 0x210, 0x211, 0x212, 0x220, 0x221,
    0x222,
];

// What stands for the index of a cell off the grid. No Option: `Around`, `PlacesFit` and `offer_all` speak of a lent row of numbers,
// and `place_of` says of each whether it is a cell's.
pub const NOWHERE: u32 = 0xffff_ffff;

// Where a step leads: the index of the cell there, or NOWHERE with the cell that the step was made from.
#[derive(Clone, Copy)]
struct Spot {
    index: u32,
    cell: Cell,
}

// Whether a shift from cell i of an axis stays on the grid.
fn stays_on(count: u32, shift: u16, i: u32) -> bool
    requires { i < count }
    ensures { result ≡ Steps.stays_on count (shift_of shift) i }
{
    if shift == 0 {
        return 0 < i;
    }
    if shift == 1 {
        return true;
    }
    i + 1 < count
}

// The number of the cell that a shift leads to on an axis.
fn shifted(count: u32, shift: u16, i: u32) -> u32
    requires { (i < count) × (Steps.stays_on count (shift_of shift) i ≡ true) }
    ensures { result ≡ Steps.shifted (shift_of shift) i }
{
    if shift == 0 {
        return i - 1;
    }
    if shift == 1 {
        return i;
    }
    i + 1
}

// Where a step of the table leads from a cell.
fn step_from(grid: Grid, cell: Cell, step: u16) -> Spot
    requires { (in_bounds grid ≡ true) × Inside grid cell }
    ensures { result ≡ spot_of grid cell (step_of step) }
{
    let x = step / 256;
    let y = step / 16 % 16;
    let z = step % 16;
    let on_x = stays_on(grid.count_x, x, cell.x);
    let on_y = stays_on(grid.count_y, y, cell.y);
    let on_z = stays_on(grid.count_z, z, cell.z);
    if on_x & on_y & on_z {
        let to = Cell {
            x: shifted(grid.count_x, x, cell.x),
            y: shifted(grid.count_y, y, cell.y),
            z: shifted(grid.count_z, z, cell.z),
        };
        let index = grid::parts::get_cell_idx(grid, to);
        return Spot {
            index: index,
            cell: to,
        };
    }
    Spot {
        index: NOWHERE,
        cell: cell,
    }
}

// Where each step leads, and the centres of the cells there. A step off the grid has the centre of the
// cell itself, so that what follows needs no branch.
fn gather(
    grid: Grid,
    cell: Cell,
    steps: &[u16],
    to: &mut [u32],
    xs: &mut [f32],
    ys: &mut [f32],
    zs: &mut [f32],
)
    requires grid_value { (in_bounds grid ≡ true) × Inside grid cell × (steps.now ≡ codes Steps.steps) }
    requires to_len { (length to.old ≡ 27) × (length xs.old ≡ 27) × (length ys.old ≡ 27) × (length zs.old ≡ 27) }
    ensures { Gathered grid cell to.new xs.new ys.new zs.new }
{
    for j in 0..27 {
        let spot = step_from(grid, cell, steps[j]);
        let centre = grid::parts::get_cell_center(grid, spot.cell);
        to[j] = spot.index;
        xs[j] = centre.x;
        ys[j] = centre.y;
        zs[j] = centre.z;
    }
}

// Where each step leads from the cell of e, and the signed square there of the triangle of e.
pub fn look_around(
    grid: Grid,
    mesh: Mesh,
    sign: SignMethod,
    steps: &[u16],
    e: Entry,
    to: &mut [u32],
    squares: &mut [f32],
)
    requires ready { Ready grid (mesh_in mesh) }
    requires known { Known (total grid) (length (triangles_in (mesh_in mesh))) e }
    requires steps_value { (steps.now ≡ codes Steps.steps) × (length to.old ≡ 27) × (length squares.old ≡ 27) }
    ensures { let m = mesh_in mesh.entry in
        Around grid m sign e to.new squares.new }
{
    let t = mesh::corners_at(mesh, e.triangle as usize);
    let facet = geo_closest::facet_of(t.a, t.b, t.c);
    let mut xs = [0.0f32; 27];
    let mut ys = [0.0f32; 27];
    let mut zs = [0.0f32; 27];
    let cell = grid::parts::get_cell_integer_coordinates(grid, e.cell);
    gather(grid, cell, steps, to, &mut xs, &mut ys, &mut zs);
    geo_measure::squares_by(sign, facet, &xs, &ys, &zs, squares);
}
