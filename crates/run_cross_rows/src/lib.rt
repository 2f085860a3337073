// The crossings of the lines along an axis with one triangle, row by row. A part of the port: users call `sdf`.
#![tactic(auto)]

ghost use Rattle.std.specs.Prelude.{◌≡◌, true, ◌*◌, ◌≤◌, length};
ghost use Rattle.grid.specs.Index.{total};
ghost use Rattle.grid.specs.Bounds.{in_bounds};
ghost use Rattle.run.specs.Grazed.{grazed_on};
ghost use Rattle.slices.specs.Counts.{Room};
ghost use Rattle.run_cross_lines.specs.Pass.{Grown, axis_crossed, cast_hit};

use geo_ray::Cast;
use grid::Grid;
use point::Axis;
use terms::Pass;

// The rows of lines along the axis, against a triangle that is made ready for them. Tells how many lines graze it.
pub fn cross_rows(
    grid: Grid,
    axis: Axis,
    cast: Cast,
    z0: &[f32],
    z1: &[f32],
    z2: &[f32],
    flags: &mut [bool],
    crossings: &mut [u32],
    pass: Pass,
) -> u64
    requires grid_value { in_bounds grid ≡ true }
    requires in_bounds { (1024 ≤ length z0.now) × (1024 ≤ length z1.now) × (1024 ≤ length z2.now) ×
        (1024 ≤ length flags.old) }
    requires crossings_len { length crossings.old ≡ 3 * total grid }
    requires room { Room 3 crossings.old }
    ensures grown { Grown grid
        (axis_crossed pass grid axis (cast_hit grid axis cast z0.now z1.now z2.now))
        crossings.old crossings.new }
    ensures result_value { let hit = cast_hit grid axis cast z0.now z1.now z2.now in
        result ≡ grazed_on grid axis hit }
{
    let xs = geo_ray::along_x(cast, run_cross_lines::centre(grid, axis, 0));
    let across = run_cross_lines::next(axis);
    let count = grid::parts::count_on(grid, across);
    let mut grazed: u64 = 0;
    for u in 0..count {
        let ys = geo_ray::across_y(cast, run_cross_lines::centre(grid, across, u));
        grazed += run_cross_hits::cross_row(
            grid, axis, u, z0, z1, z2, ys, xs, flags, crossings, pass,
        );
    }
    grazed
}
