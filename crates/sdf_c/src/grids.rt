// The grid's questions for C. Each is the method of `Grid`, with its answer as a record.
ghost use Rattle.std.specs.Prelude.{◌≡◌};
ghost use Rattle.grid.specs.Axes.{counts_of};
ghost use Rattle.grid.specs.Index.{index_of, cell_at, total};
ghost use Rattle.grid.specs.Place as Place;
ghost use Rattle.grid.specs.Reply.{of_grid, of_cell, of_index, made};
ghost use Rattle.c_records.specs.C as C;
ghost use Rattle.c_records.specs.C.{grid_in, cell_in, counts_in, point_in};

use c_records::{
    SdfBoxAnswer, SdfCell, SdfCellAnswer, SdfGrid, SdfGridAnswer, SdfNumberAnswer, SdfPoint,
    SdfPointAnswer, SdfSnapAnswer,
};
use sdf::Grid;

pub fn sdf_grid_first(grid: SdfGrid) -> SdfPointAnswer
    ensures { result ≡ C.point_for_c (of_grid (grid_in grid) (grid_in grid).first_cell) }
{
    c_grid::point_answer(Grid::from(grid).get_first_cell())
}

pub fn sdf_grid_last(grid: SdfGrid) -> SdfPointAnswer
    ensures { result ≡ C.point_for_c (of_grid (grid_in grid) (Place.last_cell (grid_in grid))) }
{
    c_grid::point_answer(Grid::from(grid).get_last_cell())
}

pub fn sdf_grid_size(grid: SdfGrid) -> SdfPointAnswer
    ensures { result ≡ C.point_for_c (of_grid (grid_in grid) (grid_in grid).cell_size) }
{
    c_grid::point_answer(Grid::from(grid).get_cell_size())
}

pub fn sdf_grid_counts(grid: SdfGrid) -> SdfCellAnswer
    ensures { result ≡ C.counts_for_c (of_grid (grid_in grid) (counts_of (grid_in grid))) }
{
    c_grid::counts_answer(Grid::from(grid).get_cell_count())
}

pub fn sdf_grid_total(grid: SdfGrid) -> SdfNumberAnswer
    ensures { result ≡ C.number_for_c (of_grid (grid_in grid) (total (grid_in grid))) }
{
    c_grid::number_answer(Grid::from(grid).get_total_cell_count())
}

pub fn sdf_grid_box(grid: SdfGrid) -> SdfBoxAnswer
    ensures { result ≡ C.box_for_c (of_grid (grid_in grid) (Place.grid_box (grid_in grid))) }
{
    c_grid::box_answer(Grid::from(grid).get_bounding_box())
}

pub fn sdf_grid_index(grid: SdfGrid, cell: SdfCell) -> SdfNumberAnswer
    ensures { result ≡ C.number_for_c (of_cell (grid_in grid) (cell_in cell) (index_of (grid_in grid) (cell_in cell))) }
{
    c_grid::number_answer(Grid::from(grid).get_cell_idx(cell.into()))
}

pub fn sdf_grid_coordinates(grid: SdfGrid, cell_idx: u32) -> SdfCellAnswer
    ensures { result ≡ C.cell_for_c (of_index (grid_in grid) cell_idx (cell_at (grid_in grid) cell_idx)) }
{
    c_grid::cell_answer(Grid::from(grid).get_cell_integer_coordinates(cell_idx))
}

pub fn sdf_grid_centre(grid: SdfGrid, cell: SdfCell) -> SdfPointAnswer
    ensures { result ≡ C.point_for_c (of_cell (grid_in grid) (cell_in cell) (Place.centre_of (grid_in grid) (cell_in cell))) }
{
    c_grid::point_answer(Grid::from(grid).get_cell_center(cell.into()))
}

pub fn sdf_grid_snap(grid: SdfGrid, point: SdfPoint) -> SdfSnapAnswer
    ensures { result ≡ C.snap_for_c (of_grid (grid_in grid) (Place.snap (grid_in grid) (point_in point))) }
{
    c_grid::snap_answer(Grid::from(grid).snap_point_to_grid(point.into()))
}

pub fn sdf_grid_from_bounding_box(min: SdfPoint, max: SdfPoint, count: SdfCell) -> SdfGridAnswer
    ensures { result ≡ C.grid_for_c (made (Place.from_box (point_in min) (point_in max) (counts_in count))) }
{
    c_grid::grid_answer(Grid::from_bounding_box(min.into(), max.into(), count.into()))
}
