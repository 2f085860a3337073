// The snapped box of a triangle: its first and its last cell (document 01, "The run", 1). A part of the port: users call
// `sdf`.
#![tactic(auto)]

ghost use Rattle.std.specs.Prelude.{◌≡◌, true, ◌&&◌, ◌+◌, ◌-◌, ◌<◌, ltb, if◌then◌else◌};
ghost use Rattle.float.specs.Arith.{◌≺◌};
ghost use Rattle.grid.specs.Bounds.{in_bounds};
ghost use Rattle.grid.specs.Place.{snap_cell};
ghost use Rattle.run.specs.Input.{seed_first, seed_last};

use grid::{Cell, Grid};
use point::Point;

// The number i of the first cell on an axis, one lower if it is above 0 and its centre lies above the
// box's low side.
fn lowered(i: u32, centre: f32, low: f32) -> u32
    ensures { result ≡ (if ltb 0 i && (low ≺ centre) then i - 1 else i) }
{
    if (0 < i) & (low < centre) { i - 1 } else { i }
}

// The number i of the last cell on an axis, one higher if it is below count - 1 and its centre lies below
// the box's high side.
fn raised(i: u32, count: u32, centre: f32, high: f32) -> u32
    requires { i < count }
    ensures { result ≡ (if ltb i (count - 1) && (centre ≺ high) then i + 1 else i) }
{
    if (i < count - 1) & (centre < high) {
        i + 1
    } else {
        i
    }
}

// The cell that a point snaps to.
fn snapped(grid: Grid, p: Point) -> Cell
    ensures { result ≡ snap_cell grid p }
{
    let snap = grid::parts::snap_point_to_grid(grid, p);
    snap.cell
}

// The first cell of a snapped box, from the box's low corner.
pub fn first_of(grid: Grid, low: Point) -> Cell
    requires { in_bounds grid ≡ true }
    ensures { result ≡ seed_first grid low }
{
    let c = snapped(grid, low);
    let m = grid::parts::get_cell_center(grid, c);
    Cell {
        x: lowered(c.x, m.x, low.x),
        y: lowered(c.y, m.y, low.y),
        z: lowered(c.z, m.z, low.z),
    }
}

// The last cell of a snapped box, from the box's high corner.
pub fn last_of(grid: Grid, high: Point) -> Cell
    requires { in_bounds grid ≡ true }
    ensures { result ≡ seed_last grid high }
{
    let c = snapped(grid, high);
    let m = grid::parts::get_cell_center(grid, c);
    Cell {
        x: raised(c.x, grid.count_x, m.x, high.x),
        y: raised(c.y, grid.count_y, m.y, high.y),
        z: raised(c.z, grid.count_z, m.z, high.z),
    }
}
