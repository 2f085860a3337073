// The grid of cells that a field is worked out on, after `grid.rs` (document 01, "Grid"). Its questions are methods
// that take the grid by value, and none has a `requires`: each is refused by 1 for a grid out of bounds, then by 4
// for a cell or an index outside the counts, else it gives what was asked for (document 01, "Reply numbers"). The
// Rust panics or runs on there. The port's own code, which has asked for the bounds once, calls the functions of
// `parts`; what is alike on the three axes is in `grid_axis`, index and product of the counts in `grid_index`. Users
// find `Grid` in `sdf`, and no `parts`.
#![tactic(auto)]

pub mod parts;

ghost use Rattle.std.specs.Prelude.{◌≡◌, true, false, IfOk, MatchResult};
ghost use Rattle.refusals.specs.Numbers.{reply_of};
ghost use Rattle.refusals.specs.declared.Refusal.TheVariants.{OutOfBounds, NoSuchIndex};
ghost use Rattle.grid.specs.Axes as Axes;
ghost use Rattle.grid.specs.Index.{is_cell, is_index, index_of, cell_at, total};
ghost use Rattle.grid.specs.Place as Place;
ghost use Rattle.grid.specs.Bounds.{in_bounds};
ghost use Rattle.grid.specs.Reply as Reply;

use point::{Axis, Point};
use refusals::Refusal;

// A cell by its number along each axis.
#[derive(Clone, Copy)]
pub struct Cell {
    pub x: u32,
    pub y: u32,
    pub z: u32,
}

// How many cells there are along each axis.
#[derive(Clone, Copy)]
pub struct Counts {
    pub x: u32,
    pub y: u32,
    pub z: u32,
}

// The centre of the first cell, the size of every cell, how many cells there are along each axis, and which axis is upright: 0 is
// x, 1 is y, 2 is z, and any other number is out of bounds. The layers of the table lie along the upright axis (document 02, §9);
// nothing else depends on it.
#[derive(Clone, Copy)]
pub struct Grid {
    pub first_cell: Point,
    pub cell_size: Point,
    pub count_x: u32,
    pub count_y: u32,
    pub count_z: u32,
    pub upright: u32,
}

// Whether a point lies in the grid: Outside if it had to be brought to the nearest cell.
#[derive(Clone, Copy)]
pub enum SnapResult {
    Inside,
    Outside,
}

// The cell that a point is in, or, of a point outside the grid, the cell nearest to it; and which of the two.
#[derive(Clone, Copy)]
pub struct Snap {
    pub result: SnapResult,
    pub cell: Cell,
}

// The two corners of a box.
#[derive(Clone, Copy)]
pub struct BoundingBox {
    pub min: Point,
    pub max: Point,
}

// ---- the questions

impl Cell {
    pub fn get(self, axis: Axis) -> u32
        ensures { result ≡ Axes.cell_on axis self }
    {
        match axis {
            Axis::X => self.x,
            Axis::Y => self.y,
            Axis::Z => self.z,
        }
    }
}

impl Grid {
    // Whether the grid lies within the bounds on a job. Only then is the product of the counts formed.
    pub fn in_bounds(self) -> bool
        ensures { result ≡ in_bounds self }
    {
        let first = self.first_cell;
        let size = self.cell_size;
        let x = grid_axis::axis_in_bounds(self.count_x, first.x, size.x);
        let y = grid_axis::axis_in_bounds(self.count_y, first.y, size.y);
        let z = grid_axis::axis_in_bounds(self.count_z, first.z, size.z);
        if !(x & y & z & (self.upright <= 2)) {
            return false;
        }
        grid_index::total_in_bounds(self.count_x, self.count_y, self.count_z)
    }

    pub fn get_first_cell(self) -> Result<Point, Refusal>
        ensures { reply_of result ≡ Reply.of_grid self self.first_cell }
    {
        self.in_bounds_or_refused()?;
        Ok(self.first_cell)
    }

    // The source's comment says the centre of the last cell; what it gives is one cell further.
    #[tactic(auto, unfolding(crate::specs::Place::last_cell))]
    pub fn get_last_cell(self) -> Result<Point, Refusal>
        ensures { reply_of result ≡ Reply.of_grid self (Place.last_cell self) }
    {
        self.in_bounds_or_refused()?;
        let first = self.first_cell;
        let size = self.cell_size;
        Ok(Point {
            x: grid_axis::end_on(first.x, size.x, self.count_x),
            y: grid_axis::end_on(first.y, size.y, self.count_y),
            z: grid_axis::end_on(first.z, size.z, self.count_z),
        })
    }

    pub fn get_cell_size(self) -> Result<Point, Refusal>
        ensures { reply_of result ≡ Reply.of_grid self self.cell_size }
    {
        self.in_bounds_or_refused()?;
        Ok(self.cell_size)
    }

    pub fn get_cell_count(self) -> Result<Counts, Refusal>
        ensures { reply_of result ≡ Reply.of_grid self (Axes.counts_of self) }
    {
        self.in_bounds_or_refused()?;
        Ok(Counts {
            x: self.count_x,
            y: self.count_y,
            z: self.count_z,
        })
    }

    pub fn get_total_cell_count(self) -> Result<u32, Refusal>
        ensures { reply_of result ≡ Reply.of_grid self (total self) }
    {
        self.in_bounds_or_refused()?;
        Ok(parts::get_total_cell_count(self))
    }

    // The corners of the box that the cells fill.
    pub fn get_bounding_box(self) -> Result<BoundingBox, Refusal>
        ensures { reply_of result ≡ Reply.of_grid self (Place.grid_box self) }
    {
        self.in_bounds_or_refused()?;
        Ok(parts::get_bounding_box(self))
    }

    pub fn get_cell_idx(self, cell: Cell) -> Result<u32, Refusal>
        ensures { reply_of result ≡ Reply.of_cell self cell (index_of self cell) }
    {
        Ok(parts::get_cell_idx(self, self.cell_or_refused(cell)?))
    }

    pub fn get_cell_integer_coordinates(self, cell_idx: u32) -> Result<Cell, Refusal>
        ensures { reply_of result ≡ Reply.of_index self cell_idx (cell_at self cell_idx) }
    {
        Ok(parts::get_cell_integer_coordinates(self, self.index_or_refused(cell_idx)?))
    }

    pub fn get_cell_center(self, cell: Cell) -> Result<Point, Refusal>
        ensures { reply_of result ≡ Reply.of_cell self cell (Place.centre_of self cell) }
    {
        Ok(parts::get_cell_center(self, self.cell_or_refused(cell)?))
    }

    // Any point may be asked for, a NaN among its coordinates too.
    pub fn snap_point_to_grid(self, point: Point) -> Result<Snap, Refusal>
        ensures { reply_of result ≡ Reply.of_grid self (Place.snap self point) }
    {
        self.in_bounds_or_refused()?;
        Ok(parts::snap_point_to_grid(self, point))
    }

    // The grid that fills a box, where it and its counts are within the bounds. It stands on z.
    pub fn from_bounding_box(
        bbox_min: Point,
        bbox_max: Point,
        cell_count: Counts,
    ) -> Result<Grid, Refusal>
        ensures { reply_of result ≡ Reply.made (Place.from_box bbox_min bbox_max cell_count) }
    {
        let x = grid_axis::size_between(bbox_min.x, bbox_max.x, cell_count.x);
        let y = grid_axis::size_between(bbox_min.y, bbox_max.y, cell_count.y);
        let z = grid_axis::size_between(bbox_min.z, bbox_max.z, cell_count.z);
        let grid = Grid {
            first_cell: Point {
                x: grid_axis::first_from(bbox_min.x, x),
                y: grid_axis::first_from(bbox_min.y, y),
                z: grid_axis::first_from(bbox_min.z, z),
            },
            cell_size: Point { x: x, y: y, z: z },
            count_x: cell_count.x,
            count_y: cell_count.y,
            count_z: cell_count.z,
            upright: 2,
        };
        grid.in_bounds_or_refused()?;
        Ok(grid)
    }

    // ---- what the questions refuse, in this order

    fn in_bounds_or_refused(self) -> Result<(), Refusal>
        ensures { MatchResult result (λ _. in_bounds self ≡ true) (λ r. (r ≡ OutOfBounds) × (in_bounds self ≡ false)) }
    {
        if self.in_bounds() {
            Ok(())
        } else {
            Err(Refusal::OutOfBounds)
        }
    }

    // The cell, of a grid that has it.
    fn cell_or_refused(self, cell: Cell) -> Result<Cell, Refusal>
        ensures is { reply_of result ≡ Reply.of_cell self cell cell }
        ensures ok { IfOk result (λ c. (c ≡ cell) × (in_bounds self ≡ true) × (is_cell self cell ≡ true)) }
    {
        self.in_bounds_or_refused()?;
        if parts::is_cell(self, cell) {
            Ok(cell)
        } else {
            Err(Refusal::NoSuchIndex)
        }
    }

    // The index, of a grid that has a cell by it.
    fn index_or_refused(self, cell_idx: u32) -> Result<u32, Refusal>
        ensures is { reply_of result ≡ Reply.of_index self cell_idx cell_idx }
        ensures ok { IfOk result (λ i. (i ≡ cell_idx) × (in_bounds self ≡ true) × (is_index self cell_idx ≡ true)) }
    {
        self.in_bounds_or_refused()?;
        if grid_index::is_index(cell_idx, self.count_x, self.count_y, self.count_z) {
            Ok(cell_idx)
        } else {
            Err(Refusal::NoSuchIndex)
        }
    }
}
