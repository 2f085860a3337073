// Steps 8 to 18: the grid's questions. Each asks what the case that begins with word `base` asks, and says
// whether the port's answer is the stored one.
ghost use Rattle.std.specs.Prelude.{◌≡◌};
ghost use Rattle.replay_steps.specs.Grids as Grids;

use crate::words::{cell, grid, is_cell, is_point, is_word, point, word};
use sdf_c::grids as c_grids;

pub fn first(text: &[u8], base: usize) -> bool
    ensures { result ≡ Grids.stored_first text.now base }
{
    let r = c_grids::sdf_grid_first(grid(text, base));
    is_word(text, base, 11, r.number) & is_point(text, base, 12, r.point)
}

pub fn last(text: &[u8], base: usize) -> bool
    ensures { result ≡ Grids.stored_last text.now base }
{
    let r = c_grids::sdf_grid_last(grid(text, base));
    is_word(text, base, 11, r.number) & is_point(text, base, 12, r.point)
}

pub fn size(text: &[u8], base: usize) -> bool
    ensures { result ≡ Grids.stored_size text.now base }
{
    let r = c_grids::sdf_grid_size(grid(text, base));
    is_word(text, base, 11, r.number) & is_point(text, base, 12, r.point)
}

pub fn counts(text: &[u8], base: usize) -> bool
    ensures { result ≡ Grids.stored_counts text.now base }
{
    let r = c_grids::sdf_grid_counts(grid(text, base));
    is_word(text, base, 11, r.number) & is_cell(text, base, 12, r.cell)
}

pub fn total(text: &[u8], base: usize) -> bool
    ensures { result ≡ Grids.stored_total text.now base }
{
    let r = c_grids::sdf_grid_total(grid(text, base));
    is_word(text, base, 11, r.number) & is_word(text, base, 12, r.value)
}

pub fn bounding_box(text: &[u8], base: usize) -> bool
    ensures { result ≡ Grids.stored_box text.now base }
{
    let r = c_grids::sdf_grid_box(grid(text, base));
    is_word(text, base, 11, r.number)
        & is_point(text, base, 12, r.min)
        & is_point(text, base, 15, r.max)
}

pub fn index(text: &[u8], base: usize) -> bool
    ensures { result ≡ Grids.stored_index text.now base }
{
    let r = c_grids::sdf_grid_index(grid(text, base), cell(text, base, 11));
    is_word(text, base, 14, r.number) & is_word(text, base, 15, r.value)
}

pub fn coordinates(text: &[u8], base: usize) -> bool
    ensures { result ≡ Grids.stored_coordinates text.now base }
{
    let r = c_grids::sdf_grid_coordinates(grid(text, base), word(text, base, 11));
    is_word(text, base, 12, r.number) & is_cell(text, base, 13, r.cell)
}

pub fn centre(text: &[u8], base: usize) -> bool
    ensures { result ≡ Grids.stored_centre text.now base }
{
    let r = c_grids::sdf_grid_centre(grid(text, base), cell(text, base, 11));
    is_word(text, base, 14, r.number) & is_point(text, base, 15, r.point)
}

pub fn snap(text: &[u8], base: usize) -> bool
    ensures { result ≡ Grids.stored_snap text.now base }
{
    let r = c_grids::sdf_grid_snap(grid(text, base), point(text, base, 11));
    is_word(text, base, 14, r.number)
        & is_word(text, base, 15, r.inside)
        & is_cell(text, base, 16, r.cell)
}

pub fn from_box(text: &[u8], base: usize) -> bool
    ensures { result ≡ Grids.stored_from_box text.now base }
{
    let low = point(text, base, 1);
    let high = point(text, base, 4);
    let r = c_grids::sdf_grid_from_bounding_box(low, high, cell(text, base, 7));
    let made = r.grid;
    is_word(text, base, 10, r.number)
        & is_point(text, base, 11, made.first)
        & is_point(text, base, 14, made.size)
        & is_cell(text, base, 17, made.count)
        & is_word(text, base, 20, made.upright)
}
