// What a grid has along one axis: where its cells lie, the cell of a coordinate, and the bounds (document 01,
// "Grid" and "Bounds on a job"). The three axes are alike, so each is one function of numbers. A part of the
// port: users call `sdf`.
#![tactic(auto)]

ghost use Rattle.std.specs.Prelude.{◌≡◌, ◌^◌, ◌<◌};
ghost use Rattle.float_floor.specs.Cell.{Snapped};
ghost use Rattle.grid_axis.specs.OnAxis as Spec;
ghost use Rattle.grid_axis.specs.AxisBounds.{axis_in_bounds};

use float_floor::Place;

// The centre of cell i of an axis. An i below 2^16 is an f32 as it stands.
pub fn centre_on(first: f32, size: f32, i: u32) -> f32
    requires { i < 2 ^ 16 }
    ensures { result ≡ Spec.centre_on first size i }
{
    first + ((i as u16) as f32) * size
}

// The low and the high side of the grid's box on an axis.
pub fn low_on(first: f32, size: f32) -> f32
    ensures { result ≡ Spec.low_on first size }
{
    first - size * 0.5
}

pub fn high_on(first: f32, size: f32, count: u32) -> f32
    ensures { result ≡ Spec.high_on first size count }
{
    first - size * 0.5 + std::num::nearest_u32_to_f32(count) * size
}

// The place of cell `count` of an axis, which is one past the last.
pub fn end_on(first: f32, size: f32, count: u32) -> f32
    ensures { result ≡ Spec.centre_on first size count }
{
    first + std::num::nearest_u32_to_f32(count) * size
}

// The cell of an axis that p lies in, and whether it was clamped.
pub fn snap_on(first: f32, size: f32, count: u32, p: f32) -> Place
    ensures { Snapped count (Spec.quotient_on first size p) result.index result.clamped }
{
    float_floor::cell((p - (first - size * 0.5)) / size, count)
}

// The size of a cell on an axis where `count` cells reach from `low` to `high`.
pub fn size_between(low: f32, high: f32, count: u32) -> f32
    ensures { result ≡ Spec.box_size low high count }
{
    (high - low) / std::num::nearest_u32_to_f32(count)
}

// The centre of the first cell of an axis whose cells begin at `low`.
pub fn first_from(low: f32, size: f32) -> f32
    ensures { result ≡ Spec.first_from low size }
{
    low + size * 0.5
}

// Whether what a grid has along one axis is within the bounds.
pub fn axis_in_bounds(count: u32, first: f32, size: f32) -> bool
    ensures { result ≡ axis_in_bounds count first size }
{
    let count_ok = (1 <= count) & (count <= 1024);
    let first_ok = float::finite_at_most(first, 1048576.0);
    let size_ok = (0.0009765625 <= size) & (size <= 1024.0);
    count_ok & first_ok & size_ok
}
