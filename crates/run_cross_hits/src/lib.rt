// What the rays of a row's lines meet: a hit adds one to the counts of the cells that it reaches, or, in the quick pass, to
// the last of them alone; and a graze is counted by itself. Only the lines that may be hit or grazed are asked. A part of
// the port: users call `sdf`.
#![tactic(auto)]

ghost use Rattle.std.specs.Prelude.{◌≡◌, true, cond, ◌*◌, ◌<◌, ◌≤◌, length};
ghost use Rattle.grid.specs.Axes.{count_on, next};
ghost use Rattle.grid.specs.Index.{total};
ghost use Rattle.grid.specs.Bounds.{in_bounds};
ghost use Rattle.geo_ray.specs.Ray.{is_grazed};
ghost use Rattle.run.specs.Grazed.{grazed_in_row};
ghost use Rattle.slices.specs.Counts.{Room};
ghost use Rattle.run_cross_lines.specs.Pass.{Grown, on_line, first_added, line_crossed, row_crossed, ahead, Marked, row_hit};

use geo_ray::{RayHit, Three};
use grid::Grid;
use point::Axis;
use terms::Pass;

// Adds one on line (u, v) to the cells from number `first` to number `last`.
fn add_line(grid: Grid, axis: Axis, u: u32, v: u32, first: u32, last: u32, crossings: &mut [u32])
    requires grid_value { in_bounds grid ≡ true }
    requires u_bound { (u < count_on (next axis) grid) × (v < count_on (next (next axis)) grid) × (first ≤ last) ×
        (last < count_on axis grid) }
    requires crossings_len { length crossings.old ≡ 3 * total grid }
    requires room { Room 1 crossings.old }
    ensures { Grown grid (on_line axis u v first last) crossings.old crossings.new }
{
    let start = run_cross_lines::entry(grid, axis, run_cross_lines::cell_on(axis, first, u, v));
    let step = run_cross_lines::step(grid, axis);
    slices::add_each(crossings, start, step, (last - first) as usize + 1);
}

// The first cell of a line that the pass adds one to, where a hit reaches those up to `last`.
fn first_added(pass: Pass, last: u32) -> u32
    ensures { result ≡ first_added pass last }
{
    match pass {
        Pass::Plain => 0,
        Pass::Quick => last,
    }
}

// "A hit at t adds one to that axis's count at each cell of the line whose number is at most
// floor(t / size)"; the quick pass "marks only the last cell" of these. A miss adds nothing, and neither does a graze. Tells
// how many grazed, 0 or 1.
fn cross_line(
    grid: Grid,
    axis: Axis,
    u: u32,
    v: u32,
    hit: RayHit,
    crossings: &mut [u32],
    pass: Pass,
) -> u64
    requires grid_value { in_bounds grid ≡ true }
    requires u_bound { (u < count_on (next axis) grid) × (v < count_on (next (next axis)) grid) }
    requires hit_value { ahead hit ≡ true }
    requires crossings_len { length crossings.old ≡ 3 * total grid }
    requires room { Room 1 crossings.old }
    ensures grown { Grown grid (line_crossed pass grid axis u v hit) crossings.old crossings.new }
    ensures value { result ≡ cond (is_grazed hit) 1 0 }
{
    match hit {
        RayHit::Miss => 0,
        RayHit::Grazed => 1,
        RayHit::Hit(t) => {
            let size = grid.cell_size;
            let last = float_floor::cell(t / size.get(axis), grid::parts::count_on(grid, axis));
            let first = first_added(pass, last.index);
            add_line(grid, axis, u, v, first, last.index, crossings);
            0
        }
    }
}

// Crosses the marked lines of row u, and counts those that graze.
fn cross_marked(
    grid: Grid,
    axis: Axis,
    u: u32,
    z0: &[f32],
    z1: &[f32],
    z2: &[f32],
    ys: Three,
    xs: Three,
    flags: &[bool],
    crossings: &mut [u32],
    pass: Pass,
) -> u64
    requires grid_value { in_bounds grid ≡ true }
    requires u_bound { (u < count_on (next axis) grid) × (1024 ≤ length z0.now) × (1024 ≤ length z1.now) ×
        (1024 ≤ length z2.now) × (1024 ≤ length flags.now) }
    requires marked { Marked z0.now z1.now z2.now ys (count_on (next (next axis)) grid) flags.now }
    requires crossings_len { length crossings.old ≡ 3 * total grid }
    requires room { Room 2 crossings.old }
    ensures grown { Grown grid (row_crossed pass grid axis u (row_hit z0.now z1.now z2.now ys xs))
        crossings.old crossings.new }
    ensures result_value { let hit = row_hit z0.now z1.now z2.now ys xs in
        result ≡ grazed_in_row (count_on (next (next axis)) grid) hit }
{
    let count = grid::parts::count_on(grid, run_cross_lines::second(axis));
    let mut grazed: u64 = 0;
    for v in 0..count {
        let at = v as usize;
        if flags[at] {
            let hit = geo_ray::ray_of(run_cross_marks::three_at(z0, z1, z2, at), ys, xs);
            grazed += cross_line(grid, axis, u, v, hit, crossings, pass);
        }
    }
    grazed
}

// Crosses the lines of row u, and counts those that graze: first it marks those that may do either, and a row without any
// is passed over.
pub fn cross_row(
    grid: Grid,
    axis: Axis,
    u: u32,
    z0: &[f32],
    z1: &[f32],
    z2: &[f32],
    ys: Three,
    xs: Three,
    flags: &mut [bool],
    crossings: &mut [u32],
    pass: Pass,
) -> u64
    requires grid_value { in_bounds grid ≡ true }
    requires u_bound { (u < count_on (next axis) grid) × (1024 ≤ length z0.now) × (1024 ≤ length z1.now) ×
        (1024 ≤ length z2.now) × (1024 ≤ length flags.old) }
    requires crossings_len { length crossings.old ≡ 3 * total grid }
    requires room { Room 2 crossings.old }
    ensures grown { Grown grid (row_crossed pass grid axis u (row_hit z0.now z1.now z2.now ys xs))
        crossings.old crossings.new }
    ensures result_value { let hit = row_hit z0.now z1.now z2.now ys xs in
        result ≡ grazed_in_row (count_on (next (next axis)) grid) hit }
{
    let count = grid::parts::count_on(grid, run_cross_lines::second(axis)) as usize;
    let any = run_cross_marks::mark_row(z0, z1, z2, ys, count, flags);
    if any {
        return cross_marked(grid, axis, u, z0, z1, z2, ys, xs, flags, crossings, pass);
    }
    0
}
