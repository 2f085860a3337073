// What the grid's questions answer with, for a caller who has asked for the bounds before: these functions refuse
// nothing, and some ask their caller for the bounds. The port's own code calls them, with a grid that
// the job was not refused for; `sdf` does not show them.
ghost use Rattle.std.specs.Prelude.{◌≡◌, true, ◌^◌, ◌<◌};
ghost use Rattle.grid.specs.Axes as Axes;
ghost use Rattle.grid.specs.Index.{Inside, index_of, cell_at, total, stride_on, is_cell};
ghost use Rattle.grid.specs.Layers as Layers;
ghost use Rattle.grid.specs.Place as Place;
ghost use Rattle.grid.specs.Bounds.{in_bounds};

use crate::{BoundingBox, Cell, Grid, Snap, SnapResult};
use point::{Axis, Point};

pub fn count_on(grid: Grid, axis: Axis) -> u32
    ensures { result ≡ Axes.count_on axis grid }
{
    match axis {
        Axis::X => grid.count_x,
        Axis::Y => grid.count_y,
        Axis::Z => grid.count_z,
    }
}

// The axis that is upright.
pub fn upright_axis(grid: Grid) -> Axis
    ensures { result ≡ Layers.upright_of grid }
{
    point::axis_numbered(grid.upright)
}

// How many layers there are.
pub fn layers(grid: Grid) -> u32
    ensures { result ≡ Layers.layers grid }
{
    count_on(grid, upright_axis(grid))
}

// By how much the index grows from a cell to the next along an axis.
pub fn stride_on(grid: Grid, axis: Axis) -> u32
    requires { in_bounds grid ≡ true }
    ensures { result ≡ stride_on grid axis }
{
    match axis {
        Axis::X => grid.count_y * grid.count_z,
        Axis::Y => grid.count_z,
        Axis::Z => 1,
    }
}

// How many cells there are.
pub fn get_total_cell_count(grid: Grid) -> u32
    requires { in_bounds grid ≡ true }
    ensures { result ≡ total grid }
{
    grid_index::total(grid.count_x, grid.count_y, grid.count_z)
}

// Whether a cell lies within the counts.
pub fn is_cell(grid: Grid, cell: Cell) -> bool
    ensures { result ≡ is_cell grid cell }
{
    (cell.x < grid.count_x) & (cell.y < grid.count_y) & (cell.z < grid.count_z)
}

// The index of a cell: z fastest, then y, then x.
pub fn get_cell_idx(grid: Grid, cell: Cell) -> u32
    requires { (in_bounds grid ≡ true) × Inside grid cell }
    ensures { result ≡ index_of grid cell }
{
    grid_index::index(cell.x, cell.y, cell.z, grid.count_y, grid.count_z)
}

// The cell of an index.
pub fn get_cell_integer_coordinates(grid: Grid, cell_idx: u32) -> Cell
    requires { in_bounds grid ≡ true }
    ensures { result ≡ cell_at grid cell_idx }
{
    Cell {
        x: grid_index::x_of(cell_idx, grid.count_y, grid.count_z),
        y: grid_index::y_of(cell_idx, grid.count_y, grid.count_z),
        z: grid_index::z_of(cell_idx, grid.count_z),
    }
}

// The centre of a cell.
#[tactic(auto, unfolding(crate::specs::Place::centre_of))]
pub fn get_cell_center(grid: Grid, cell: Cell) -> Point
    requires { (cell.x < 2 ^ 16) × (cell.y < 2 ^ 16) × (cell.z < 2 ^ 16) }
    ensures { result ≡ Place.centre_of grid cell }
{
    let first = grid.first_cell;
    let size = grid.cell_size;
    Point {
        x: grid_axis::centre_on(first.x, size.x, cell.x),
        y: grid_axis::centre_on(first.y, size.y, cell.y),
        z: grid_axis::centre_on(first.z, size.z, cell.z),
    }
}

// The corners of the box that the cells fill.
#[tactic(auto, unfolding(crate::specs::Place::box_min, crate::specs::Place::box_max))]
pub fn get_bounding_box(grid: Grid) -> BoundingBox
    ensures { result ≡ Place.grid_box grid }
{
    let first = grid.first_cell;
    let size = grid.cell_size;
    BoundingBox {
        min: Point {
            x: grid_axis::low_on(first.x, size.x),
            y: grid_axis::low_on(first.y, size.y),
            z: grid_axis::low_on(first.z, size.z),
        },
        max: Point {
            x: grid_axis::high_on(first.x, size.x, grid.count_x),
            y: grid_axis::high_on(first.y, size.y, grid.count_y),
            z: grid_axis::high_on(first.z, size.z, grid.count_z),
        },
    }
}

// The cell that a point lies in, or the nearest to it where it lies outside.
pub fn snap_point_to_grid(grid: Grid, point: Point) -> Snap
    ensures { result ≡ Place.snap grid point }
{
    let first = grid.first_cell;
    let size = grid.cell_size;
    let x = grid_axis::snap_on(first.x, size.x, grid.count_x, point.x);
    let y = grid_axis::snap_on(first.y, size.y, grid.count_y, point.y);
    let z = grid_axis::snap_on(first.z, size.z, grid.count_z, point.z);
    let cell = Cell {
        x: x.index,
        y: y.index,
        z: z.index,
    };
    if x.clamped | y.clamped | z.clamped {
        return Snap {
            result: SnapResult::Outside,
            cell: cell,
        };
    }
    Snap {
        result: SnapResult::Inside,
        cell: cell,
    }
}
