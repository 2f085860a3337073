// Which lines of a row may be hit or grazed: of the crossing pass what depends on the triangle and one of a line's two
// numbers is worked out once, and a loop over the lines of a row only tells which are to be asked. It has no branch, so
// that it is compiled to vector code. A part of the port: users call `sdf`.
#![tactic(auto)]

ghost use Rattle.std.specs.Prelude.{◌≡◌, true, false, ℕ, ◌<◌, ◌≤◌, length};
ghost use Rattle.grid.specs.Axes.{count_on};
ghost use Rattle.grid.specs.Bounds.{in_bounds};
ghost use Rattle.run_cross_lines.specs.Pass.{parts_at, may_meet, Across, Marked};

use geo_ray::{Cast, Three};
use grid::Grid;
use point::Axis;

// Line v of a row: the parts of its weights.
pub fn three_at(z0: &[f32], z1: &[f32], z2: &[f32], v: usize) -> Three
    requires { (v < length z0.now) × (v < length z1.now) × (v < length z2.now) }
    ensures { result ≡ parts_at z0.now z1.now z2.now v }
{
    let v0 = z0[v];
    let v1 = z1[v];
    let v2 = z2[v];
    Three { v0, v1, v2 }
}

// Whether no weight is above 0 with another below 0, as every hit and every graze has them.
fn may_meet(zs: Three, ys: Three) -> bool
    ensures { result ≡ may_meet zs ys }
{
    let w0 = zs.v0 - ys.v0;
    let w1 = zs.v1 - ys.v1;
    let w2 = zs.v2 - ys.v2;
    let above = (w0 > 0.0) | (w1 > 0.0) | (w2 > 0.0);
    let below = (w0 < 0.0) | (w1 < 0.0) | (w2 < 0.0);
    !(above & below)
}

// The parts of the weights that depend on v, for every line of a row. The axis is that along which v counts.
pub fn fill_across(
    grid: Grid,
    axis: Axis,
    cast: Cast,
    z0: &mut [f32],
    z1: &mut [f32],
    z2: &mut [f32],
)
    requires grid_value { in_bounds grid ≡ true }
    requires in_bounds { (1024 ≤ length z0.old) × (1024 ≤ length z1.old) × (1024 ≤ length z2.old) }
    ensures { Across grid axis cast (count_on axis grid) z0.new z1.new z2.new }
{
    let count = grid::parts::count_on(grid, axis);
    for i in 0..count {
        let at = i as usize;
        let part = geo_ray::across_z(cast, run_cross_lines::centre(grid, axis, i));
        z0[at] = part.v0;
        z1[at] = part.v1;
        z2[at] = part.v2;
    }
}

// Marks the lines of a row that may be hit or grazed, and tells whether there are any.
pub fn mark_row(
    z0: &[f32],
    z1: &[f32],
    z2: &[f32],
    ys: Three,
    count: usize,
    flags: &mut [bool],
) -> bool
    requires { (count ≤ length z0.now) × (count ≤ length z1.now) × (count ≤ length z2.now) ×
        (count ≤ length flags.old) }
    ensures marked { Marked z0.now z1.now z2.now ys count flags.new }
    ensures fact { let parts = parts_at z0.now z1.now z2.now in
        (result ≡ false → (v : ℕ) → v < count → may_meet (parts v) ys ≡ false) }
{
    let mut any = false;
    for v in 0..count {
        let flag = may_meet(three_at(z0, z1, z2, v), ys);
        flags[v] = flag;
        any |= flag;
    }
    any
}
