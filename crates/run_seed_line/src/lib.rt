// Seeding along a line of cells: a triangle is offered to the cells of a line, four at a time. A part of the port: users call
// `sdf`.
#![tactic(auto)]

ghost use Rattle.std.specs.Prelude.{◌≡◌, true, ◌+◌, ◌≤◌, ◌<◌, length};
ghost use Rattle.lists.specs.Turns.{told};
ghost use Rattle.refusals.specs.Numbers.{refusal_number};
ghost use Rattle.grid.specs.Axes.{cell_numbered};
ghost use Rattle.grid.specs.Index.{Inside, total};
ghost use Rattle.grid.specs.Bounds.{in_bounds};
ghost use Rattle.run_seed_cells.specs.Parts.{seed_state, along_line};

use geo_closest::Facet;
use grid::{Cell, Grid};
use refusals::Refusal;
use terms::SignMethod;

// Where the four cells from z on end, and no further than hi.
fn last_of_four(z: u32, hi: u32) -> u32
    requires { z ≤ hi }
    ensures { (z ≤ result) × (result ≤ hi) × (result < z + 4) }
{
    if hi - z < 3 { hi } else { z + 3 }
}

// To the cells (x, y, z) with z from lo to hi, four at a time.
pub fn seed_line(
    field: &mut [f32],
    names: &mut [u32],
    grid: Grid,
    sign: SignMethod,
    f: Facet,
    k: u32,
    x: u32,
    y: u32,
    lo: u32,
    hi: u32,
) -> Result<(), Refusal>
    requires grid_value { (in_bounds grid ≡ true) × Inside grid (cell_numbered x y hi) }
    requires field_len { (length field.old ≡ total grid) × (length names.old ≡ total grid) }
    ensures { let s = seed_state field.old names.old in
        let t = seed_state field.new names.new in
        along_line grid sign f k x y lo hi s ≡ told (refusal_number result) t }
{
    // a piece begins behind the last cell of the one before: with `step_by(4)` the four would stand here and in `last_of_four`
    let mut z = lo;
    while z <= hi {
        let last = last_of_four(z, hi);
        run_seed_four::offer_four(
            field,
            names,
            grid,
            sign,
            f,
            k,
            Cell { x: x, y: y, z: z },
            last,
        )?;
        z = last + 1;
    }
    Ok(())
}
