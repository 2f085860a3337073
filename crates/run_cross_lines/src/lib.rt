// The lines of cells along an axis, once for all three. A line is named by the numbers u and v of its
// cells on the two other axes, in the order in which `Point::turned` reads the coordinates. The crossing
// counts are 3 to a cell, one for each axis; here that is an entry. A part of the port: users call `sdf`.
#![tactic(auto)]

ghost use Rattle.std.specs.Prelude.{◌≡◌, true, ◌*◌, ◌^◌, ◌<◌};
ghost use Rattle.grid.specs.Axes as Axes;
ghost use Rattle.grid.specs.Index.{Inside, stride_on};
ghost use Rattle.grid.specs.Bounds.{in_bounds};
ghost use Rattle.run_cross_lines.specs.Lines as Lines;

use grid::{Cell, Grid};
use point::Axis;

// The axis that comes after this one, round and round. Along it u counts.
pub fn next(axis: Axis) -> Axis
    ensures { result ≡ Axes.next axis }
{
    match axis {
        Axis::X => Axis::Y,
        Axis::Y => Axis::Z,
        Axis::Z => Axis::X,
    }
}

// The axis after the next, along which v counts.
pub fn second(axis: Axis) -> Axis
    ensures { result ≡ Axes.next (Axes.next axis) }
{
    match axis {
        Axis::X => Axis::Z,
        Axis::Y => Axis::X,
        Axis::Z => Axis::Y,
    }
}

// The centre of cell i on the axis.
pub fn centre(grid: Grid, axis: Axis, i: u32) -> f32
    requires { i < 2 ^ 16 }
    ensures { result ≡ Lines.centre_along grid axis i }
{
    let first = grid.first_cell;
    let size = grid.cell_size;
    grid_axis::centre_on(first.get(axis), size.get(axis), i)
}

// Cell number n of line (u, v).
pub fn cell_on(axis: Axis, n: u32, u: u32, v: u32) -> Cell
    ensures { result ≡ Axes.cell_from axis n u v }
{
    match axis {
        Axis::X => Cell { x: n, y: u, z: v },
        Axis::Y => Cell { x: v, y: n, z: u },
        Axis::Z => Cell { x: u, y: v, z: n },
    }
}

// Which of a cell's three entries is the axis's.
fn place(axis: Axis) -> usize
    ensures { result ≡ Lines.axis_number axis }
{
    match axis {
        Axis::X => 0,
        Axis::Y => 1,
        Axis::Z => 2,
    }
}

// The entry of a cell for the axis.
pub fn entry(grid: Grid, axis: Axis, cell: Cell) -> usize
    requires { (in_bounds grid ≡ true) × Inside grid cell }
    ensures { result ≡ Lines.entry_of grid axis cell }
{
    let index = grid::parts::get_cell_idx(grid, cell);
    3 * (index as usize) + place(axis)
}

// By how much the entry grows from a cell to the next along the axis.
pub fn step(grid: Grid, axis: Axis) -> usize
    requires { in_bounds grid ≡ true }
    ensures { result ≡ 3 * stride_on grid axis }
{
    3 * (grid::parts::stride_on(grid, axis) as usize)
}
