// "And then sums back along the line" (document 02, §4): the second half of the quick pass. The hits of all triangles are
// marked, each at the last cell that it reaches; here each entry becomes the sum of its own marks and those of the cells
// after it on its line. The cells are gone through once for all three axes, as they lie, the last one first: the next cell
// of a line has the higher index, so that its sum is there already. A part of the port: users call `sdf`.
#![tactic(auto)]

ghost use Rattle.std.specs.Prelude.{◌≡◌, true, ◌+◌, ◌*◌, ◌^◌, ◌<◌, length};
ghost use Rattle.grid.specs.Index.{total};
ghost use Rattle.grid.specs.Bounds.{in_bounds};
ghost use Rattle.run_cross_back.specs.Back.{SumsFit, SummedBack, with_next, next_added};

use grid::Grid;
use point::Axis;

// Adds to the number at a place the one that lies so far apart, if there is more on its line.
fn add_next(numbers: &mut [u32], at: usize, apart: usize, more: bool)
    requires { more ≡ true → (at + apart < length numbers.old) × (with_next at apart numbers.old < 2 ^ 32) }
    ensures { numbers.new ≡ next_added at apart more numbers.old }
{
    if more {
        numbers[at] += numbers[at + apart];
    }
}

// Sums back along all lines.
pub fn sum_back(grid: Grid, crossings: &mut [u32])
    requires grid_value { in_bounds grid ≡ true }
    requires crossings_len { length crossings.old ≡ 3 * total grid }
    requires sums_fit { SumsFit grid crossings.old }
    ensures { SummedBack grid crossings.old crossings.new }
{
    let far_x = run_cross_lines::step(grid, Axis::X);
    let far_y = run_cross_lines::step(grid, Axis::Y);
    let far_z = run_cross_lines::step(grid, Axis::Z);
    let mut at = 3 * (grid::parts::get_total_cell_count(grid) as usize);
    for x in (0..grid.count_x).rev() {
        for y in (0..grid.count_y).rev() {
            for z in (0..grid.count_z).rev() {
                at -= 3;
                add_next(crossings, at + 2, far_z, z + 1 < grid.count_z);
                add_next(crossings, at + 1, far_y, y + 1 < grid.count_y);
                add_next(crossings, at, far_x, x + 1 < grid.count_x);
            }
        }
    }
}
