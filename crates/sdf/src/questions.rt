// The questions asked by themselves (document 01, "Reply numbers", its last paragraph). None has a
// `requires`. The grid refuses by 1 a grid out of bounds, then by 4 a cell or an index outside
// the counts; the geometry by 2 a coordinate that is not finite or above 2,097,152 in magnitude, then by 6
// a NaN in its result, which a box and a ray's reply never hold; the comparison by 6 a NaN. The root takes any number.
ghost use Rattle.std.specs.Prelude.{◌≡◌};
ghost use Rattle.float.specs.RootOf.{IsRoot, root_bits};
ghost use Rattle.float_order.specs.Asked.{Compared};
ghost use Rattle.refusals.specs.Numbers.{reply_of};
ghost use Rattle.grid.specs.Axes.{counts_of};
ghost use Rattle.grid.specs.Index.{index_of, cell_at, total};
ghost use Rattle.grid.specs.Place as Place;
ghost use Rattle.grid.specs.Reply as Reply;
ghost use Rattle.ask_geo.specs.Asked as Asked;

use ask_geo::{RayHit, TriangleBox};
use grid::{BoundingBox, Cell, Counts, Grid, Snap};
use point::{Axis, Point};
use refusals::Refusal;
use std::cmp::Ordering;

// ---- the root and the comparison

pub fn sqrt(x: f32) -> f32
    ensures { IsRoot x result }
{
    float_root::sqrt(x)
}

pub fn sqrt_bits(b: u32) -> u32
    ensures { result ≡ root_bits b }
{
    float_root::sqrt_bits(b)
}

pub fn compare(a: f32, b: f32) -> Result<Ordering, Refusal>
    ensures { Compared a b result }
{
    float_order::compare(a, b)
}

// ---- the grid

pub fn get_first_cell(grid: Grid) -> Result<Point, Refusal>
    ensures { reply_of result ≡ Reply.of_grid grid grid.first_cell }
{
    grid.get_first_cell()
}

pub fn get_last_cell(grid: Grid) -> Result<Point, Refusal>
    ensures { reply_of result ≡ Reply.of_grid grid (Place.last_cell grid) }
{
    grid.get_last_cell()
}

pub fn get_cell_size(grid: Grid) -> Result<Point, Refusal>
    ensures { reply_of result ≡ Reply.of_grid grid grid.cell_size }
{
    grid.get_cell_size()
}

pub fn get_cell_count(grid: Grid) -> Result<Counts, Refusal>
    ensures { reply_of result ≡ Reply.of_grid grid (counts_of grid) }
{
    grid.get_cell_count()
}

pub fn get_total_cell_count(grid: Grid) -> Result<u32, Refusal>
    ensures { reply_of result ≡ Reply.of_grid grid (total grid) }
{
    grid.get_total_cell_count()
}

pub fn get_bounding_box(grid: Grid) -> Result<BoundingBox, Refusal>
    ensures { reply_of result ≡ Reply.of_grid grid (Place.grid_box grid) }
{
    grid.get_bounding_box()
}

pub fn get_cell_idx(grid: Grid, cell: Cell) -> Result<u32, Refusal>
    ensures { reply_of result ≡ Reply.of_cell grid cell (index_of grid cell) }
{
    grid.get_cell_idx(cell)
}

pub fn get_cell_integer_coordinates(grid: Grid, cell_idx: u32) -> Result<Cell, Refusal>
    ensures { reply_of result ≡ Reply.of_index grid cell_idx (cell_at grid cell_idx) }
{
    grid.get_cell_integer_coordinates(cell_idx)
}

pub fn get_cell_center(grid: Grid, cell: Cell) -> Result<Point, Refusal>
    ensures { reply_of result ≡ Reply.of_cell grid cell (Place.centre_of grid cell) }
{
    grid.get_cell_center(cell)
}

pub fn snap_point_to_grid(grid: Grid, point: Point) -> Result<Snap, Refusal>
    ensures { reply_of result ≡ Reply.of_grid grid (Place.snap grid point) }
{
    grid.snap_point_to_grid(point)
}

pub fn from_bounding_box(
    bbox_min: Point,
    bbox_max: Point,
    cell_count: Counts,
) -> Result<Grid, Refusal>
    ensures { reply_of result ≡ Reply.made (Place.from_box bbox_min bbox_max cell_count) }
{
    Grid::from_bounding_box(bbox_min, bbox_max, cell_count)
}

// ---- the geometry

pub fn triangle_bounding_box(a: Point, b: Point, c: Point) -> Result<TriangleBox, Refusal>
    ensures answered { reply_of result ≡ Asked.asked_box a b c }
    ensures never_6 { reply_of result ≡ Asked.box_or_2 a b c }
{
    ask_geo::asked::triangle_bounding_box(a, b, c)
}

pub fn closest_point_segment(p: Point, a: Point, b: Point) -> Result<Point, Refusal>
    ensures { reply_of result ≡ Asked.asked_segment p a b }
{
    ask_geo::asked::closest_point_segment(p, a, b)
}

pub fn closest_point_triangle(p: Point, a: Point, b: Point, c: Point) -> Result<Point, Refusal>
    ensures { reply_of result ≡ Asked.asked_triangle p a b c }
{
    ask_geo::asked::closest_point_triangle(p, a, b, c)
}

pub fn point_triangle_distance(p: Point, a: Point, b: Point, c: Point) -> Result<f32, Refusal>
    ensures { reply_of result ≡ Asked.asked_distance p a b c }
{
    ask_geo::asked::point_triangle_distance(p, a, b, c)
}

pub fn point_triangle_signed_distance(
    p: Point,
    a: Point,
    b: Point,
    c: Point,
) -> Result<f32, Refusal>
    ensures { reply_of result ≡ Asked.asked_signed_distance p a b c }
{
    ask_geo::asked::point_triangle_signed_distance(p, a, b, c)
}

pub fn ray_triangle_intersection_aligned(
    o: Point,
    v0: Point,
    v1: Point,
    v2: Point,
    axis: Axis,
) -> Result<RayHit, Refusal>
    ensures answered { reply_of result ≡ Asked.asked_ray o v0 v1 v2 axis }
    ensures never_6 { reply_of result ≡ Asked.ray_or_2 o v0 v1 v2 axis }
{
    ask_geo::asked::ray_triangle_intersection_aligned(o, v0, v1, v2, axis)
}
