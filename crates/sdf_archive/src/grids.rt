// The grid's questions, for C: the calls of `sdf_c::grids`.
ghost use Rattle.std.specs.Prelude.{◌≡◌};
ghost use Rattle.grid.specs.Axes.{counts_of};
ghost use Rattle.grid.specs.Index.{index_of, cell_at, total};
ghost use Rattle.grid.specs.Place as Place;
ghost use Rattle.grid.specs.Reply.{of_grid, of_cell, of_index, made};
ghost use Rattle.c_records.specs.C as C;
ghost use Rattle.c_records.specs.C.{grid_in, cell_in, counts_in, point_in};

use c_records::{
    SdfBoxAnswer, SdfCell, SdfCellAnswer, SdfGrid, SdfGridAnswer, SdfNumberAnswer, SdfPoint,
    SdfPointAnswer, SdfSnapAnswer,
};

#[unsafe(no_mangle)]
pub extern "C" fn sdf_grid_first(grid: SdfGrid) -> SdfPointAnswer
    ensures { result ≡ C.point_for_c (of_grid (grid_in grid) (grid_in grid).first_cell) }
{
    sdf_c::grids::sdf_grid_first(grid)
}

#[unsafe(no_mangle)]
pub extern "C" fn sdf_grid_last(grid: SdfGrid) -> SdfPointAnswer
    ensures { result ≡ C.point_for_c (of_grid (grid_in grid) (Place.last_cell (grid_in grid))) }
{
    sdf_c::grids::sdf_grid_last(grid)
}

#[unsafe(no_mangle)]
pub extern "C" fn sdf_grid_size(grid: SdfGrid) -> SdfPointAnswer
    ensures { result ≡ C.point_for_c (of_grid (grid_in grid) (grid_in grid).cell_size) }
{
    sdf_c::grids::sdf_grid_size(grid)
}

#[unsafe(no_mangle)]
pub extern "C" fn sdf_grid_counts(grid: SdfGrid) -> SdfCellAnswer
    ensures { result ≡ C.counts_for_c (of_grid (grid_in grid) (counts_of (grid_in grid))) }
{
    sdf_c::grids::sdf_grid_counts(grid)
}

#[unsafe(no_mangle)]
pub extern "C" fn sdf_grid_total(grid: SdfGrid) -> SdfNumberAnswer
    ensures { result ≡ C.number_for_c (of_grid (grid_in grid) (total (grid_in grid))) }
{
    sdf_c::grids::sdf_grid_total(grid)
}

#[unsafe(no_mangle)]
pub extern "C" fn sdf_grid_box(grid: SdfGrid) -> SdfBoxAnswer
    ensures { result ≡ C.box_for_c (of_grid (grid_in grid) (Place.grid_box (grid_in grid))) }
{
    sdf_c::grids::sdf_grid_box(grid)
}

#[unsafe(no_mangle)]
pub extern "C" fn sdf_grid_index(grid: SdfGrid, cell: SdfCell) -> SdfNumberAnswer
    ensures { result ≡ C.number_for_c (of_cell (grid_in grid) (cell_in cell) (index_of (grid_in grid) (cell_in cell))) }
{
    sdf_c::grids::sdf_grid_index(grid, cell)
}

#[unsafe(no_mangle)]
pub extern "C" fn sdf_grid_coordinates(grid: SdfGrid, cell_idx: u32) -> SdfCellAnswer
    ensures { result ≡ C.cell_for_c (of_index (grid_in grid) cell_idx (cell_at (grid_in grid) cell_idx)) }
{
    sdf_c::grids::sdf_grid_coordinates(grid, cell_idx)
}

#[unsafe(no_mangle)]
pub extern "C" fn sdf_grid_centre(grid: SdfGrid, cell: SdfCell) -> SdfPointAnswer
    ensures { result ≡ C.point_for_c (of_cell (grid_in grid) (cell_in cell) (Place.centre_of (grid_in grid) (cell_in cell))) }
{
    sdf_c::grids::sdf_grid_centre(grid, cell)
}

#[unsafe(no_mangle)]
pub extern "C" fn sdf_grid_snap(grid: SdfGrid, point: SdfPoint) -> SdfSnapAnswer
    ensures { result ≡ C.snap_for_c (of_grid (grid_in grid) (Place.snap (grid_in grid) (point_in point))) }
{
    sdf_c::grids::sdf_grid_snap(grid, point)
}

#[unsafe(no_mangle)]
pub extern "C" fn sdf_grid_from_bounding_box(
    min: SdfPoint,
    max: SdfPoint,
    count: SdfCell,
) -> SdfGridAnswer
    ensures { result ≡ C.grid_for_c (made (Place.from_box (point_in min) (point_in max) (counts_in count))) }
{
    sdf_c::grids::sdf_grid_from_bounding_box(min, max, count)
}
