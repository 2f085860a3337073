// Seeding's offers, four cells of a line at a time. A part of the port: users call `sdf`.
#![tactic(auto)]

ghost use Rattle.std.specs.Prelude.{◌≡◌, true, ◌+◌, ◌≤◌, ◌<◌, length};
ghost use Rattle.lists.specs.Turns.{told};
ghost use Rattle.refusals.specs.Numbers.{refusal_number};
ghost use Rattle.grid.specs.Axes.{cell_numbered};
ghost use Rattle.grid.specs.Index.{Inside, total};
ghost use Rattle.grid.specs.Bounds.{in_bounds};
ghost use Rattle.run_seed_cells.specs.Parts.{seed_state, along_line};
ghost use Rattle.run_seed_four.specs.Four.{SquaresFrom};

use geo_closest::Facet;
use grid::{Cell, Grid};
use refusals::Refusal;
use terms::SignMethod;

// The signed squares of f from the centres of four cells: `at` and the three behind it along z, which need not
// be on the grid. Four are worked out with no branch in little more time than one.
fn squares_from(grid: Grid, sign: SignMethod, f: Facet, at: Cell) -> [f32; 4]
    requires { (in_bounds grid ≡ true) × Inside grid at }
    ensures { SquaresFrom grid sign f at result }
{
    let p = grid::parts::get_cell_center(grid, at);
    let first = grid.first_cell.z;
    let size = grid.cell_size.z;
    let xs = [p.x; 4];
    let ys = [p.y; 4];
    let zs = [
        p.z,
        grid_axis::centre_on(first, size, at.z + 1),
        grid_axis::centre_on(first, size, at.z + 2),
        grid_axis::centre_on(first, size, at.z + 3),
    ];
    let mut squares = [0.0f32; 4];
    geo_measure::squares_by(sign, f, &xs, &ys, &zs, &mut squares);
    squares
}

// Offers triangle k, made ready as f, to `at` and the cells behind it along z as far as `last`, four at most.
pub fn offer_four(
    field: &mut [f32],
    names: &mut [u32],
    grid: Grid,
    sign: SignMethod,
    f: Facet,
    k: u32,
    at: Cell,
    last: u32,
) -> Result<(), Refusal>
    requires grid_value { (in_bounds grid ≡ true) × Inside grid (cell_numbered at.x at.y last) × (at.z ≤ last) ×
        (last < at.z + 4) }
    requires field_len { (length field.old ≡ total grid) × (length names.old ≡ total grid) }
    ensures { let s = seed_state field.old names.old in
        let t = seed_state field.new names.new in
        along_line grid sign f k at.x at.y at.z last s ≡ told (refusal_number result) t }
{
    let squares = squares_from(grid, sign, f, at);
    let c = grid::parts::get_cell_idx(grid, at) as usize;
    let n = (last - at.z + 1) as usize;
    for i in 0..n {
        run_seed_cells::offer(field, names, c + i, k, squares[i])?;
    }
    Ok(())
}
