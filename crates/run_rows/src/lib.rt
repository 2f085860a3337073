// The rows: how much of each layer is inside, by the edition of the table. In edition 1 a cell counts "when its sign bit is
// set" (document 02, §2), -0 too; edition 2 is in half cells, and a cell at distance zero counts one (§11). The layers lie
// along the upright axis (§9). A part of the port: users call `sdf`.
//
// Along any axis the field is a row of blocks. A block has the cells of every layer in turn, `step` of each side by side, where `step` is
// by how much the index grows from a layer to the next: with z upright a block is one column of cells, with x upright the whole field.
#![tactic(auto)]

ghost use Rattle.std.specs.Prelude.{◌≡◌, true, ◌+◌, ◌*◌, ◌^◌, ◌≤◌, ◌<◌, length};
ghost use Rattle.grid.specs.Index.{total};
ghost use Rattle.grid.specs.Layers.{layers};
ghost use Rattle.grid.specs.Bounds.{in_bounds};
ghost use Rattle.run.specs.Signs as Signs;
ghost use Rattle.run.specs.Signs.{whole_weight, half_weight, row_weight};
ghost use Rattle.slices.specs.Counts.{Room};
ghost use Rattle.run_rows.specs.Block.{run_weight, BlockAdded};

use grid::Grid;

// What a cell adds to its row in edition 1, which counts cells.
fn whole_weight(d: f32) -> u32
    ensures { result ≡ whole_weight d }
{
    slices::one_if(float::sign_bit(d))
}

// And in edition 2, which counts half cells.
fn half_weight(d: f32) -> u32
    ensures { result ≡ half_weight d }
{
    let magnitude = float::abs(d);
    if float::sign_bit(d) & (0.0 < magnitude) {
        return 2;
    }
    slices::one_if(magnitude == 0.0)
}

fn weight(edition: u32, d: f32) -> u32
    ensures { result ≡ row_weight edition d }
{
    if edition == 2 {
        return half_weight(d);
    }
    whole_weight(d)
}

// Adds a block with one cell of each layer, a column: what a run of one cell would add, without the run.
fn add_column(edition: u32, field: &[f32], start: usize, rows: &mut [u32])
    requires rows_in_bounds { start + length rows.old ≤ length field.now }
    requires room { Room 2 rows.old }
    ensures { BlockAdded (row_weight edition) field.now start 1 rows.old rows.new }
{
    for n in 0..rows.len() {
        rows[n] += weight(edition, field[start + n]);
    }
}

// What the `count` cells add that lie side by side from `at` on.
fn count_run(edition: u32, field: &[f32], at: usize, count: usize) -> u32
    requires { (at + count ≤ length field.now) × (2 * count < 2 ^ 32) }
    ensures { result ≡ run_weight (row_weight edition) field.now at count }
{
    let mut sum = 0;
    for j in 0..count {
        sum += weight(edition, field[at + j]);
    }
    sum
}

// Adds a block of any width, the run of each layer to its row.
fn add_runs(edition: u32, field: &[f32], start: usize, step: usize, rows: &mut [u32])
    requires step_in_bounds { start + length rows.old * step ≤ length field.now }
    requires room { Room (2 * step) rows.old }
    ensures { BlockAdded (row_weight edition) field.now start step rows.old rows.new }
{
    for n in 0..rows.len() {
        rows[n] += count_run(edition, field, start + n * step, step);
    }
}

// Adds one block.
fn add_block(edition: u32, field: &[f32], start: usize, step: usize, rows: &mut [u32])
    requires step_in_bounds { start + length rows.old * step ≤ length field.now }
    requires room { Room (2 * step) rows.old }
    ensures { BlockAdded (row_weight edition) field.now start step rows.old rows.new }
{
    if step == 1 {
        add_column(edition, field, start, rows);
        return;
    }
    add_runs(edition, field, start, step, rows);
}

// The rows of a field, by an edition. They may hold anything before.
pub fn count_rows(edition: u32, grid: Grid, field: &[f32], rows: &mut [u32])
    requires grid_value { in_bounds grid ≡ true }
    requires field_len { length field.now ≡ total grid }
    requires rows_len { length rows.old ≡ layers grid }
    ensures { rows.new ≡ Signs.rows edition grid field.now }
{
    rows.fill(0);
    let upright = grid::parts::upright_axis(grid);
    let step = grid::parts::stride_on(grid, upright) as usize;
    let block = rows.len() * step;
    for start in (0..field.len()).step_by(block) {
        add_block(edition, field, start, step, rows);
    }
}
