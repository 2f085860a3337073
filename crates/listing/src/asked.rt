// What the lines of a job's text ask of the port: its grid, its sizes, its terms.
ghost use Rattle.std.specs.Prelude.{◌≤◌, ◌≡◌};
ghost use Rattle.grid.specs.Layers.{layers};
ghost use Rattle.text.specs.Limits.{most_cells};
ghost use Rattle.text.specs.TextJob.{upright_meant, table_meant, cells_of};
ghost use Rattle.listing.specs.Listing.{point_of, grid_of, terms_of};

use float_bits::float_of;
use grid::Grid;
use point::{Axis, Point};
use terms::{Pass, Terms};
use text::{Head, MOST_CELLS, Tail, Three};

fn point_of(t: Three) -> Point
    ensures { result ≡ point_of t }
{
    let x = float_of(t.x);
    let y = float_of(t.y);
    let z = float_of(t.z);
    Point { x, y, z }
}

// The number of the upright axis, which is z where nothing is said.
fn upright_of(said: Option<Axis>) -> u32
    ensures { result ≡ upright_meant said }
{
    match said {
        None => 2,
        Some(Axis::X) => 0,
        Some(Axis::Y) => 1,
        Some(Axis::Z) => 2,
    }
}

pub fn grid_of(head: Head) -> Grid
    ensures { result ≡ grid_of head }
{
    let count = head.count;
    let first = head.first;
    let size = head.size;
    let said = head.upright;
    let first_cell = point_of(first);
    let cell_size = point_of(size);
    let upright = upright_of(said);
    Grid {
        first_cell,
        cell_size,
        count_x: count.x,
        count_y: count.y,
        count_z: count.z,
        upright,
    }
}

pub fn cells_of(count: Three) -> usize
    requires { cells_of count ≤ most_cells }
    ensures { result ≡ cells_of count }
{
    (count.x as usize) * (count.y as usize) * (count.z as usize)
}

// At most as many as the program takes cells.
fn layers_of(n: u32) -> usize
    ensures { (result ≤ most_cells) × (n ≤ most_cells → result ≡ n) }
{
    if (MOST_CELLS as u32) < n {
        0
    } else {
        n as usize
    }
}

// The length of the buffer for the rows. More layers than the program takes cells are those of a grid with no
// cells, which is refused before the buffer is asked for.
pub fn rows_of(head: Head) -> usize
    ensures { (result ≤ most_cells) × (layers (grid_of head) ≤ most_cells → result ≡ layers (grid_of head)) }
{
    let grid = grid_of(head);
    let n = grid::parts::layers(grid);
    layers_of(n)
}

// The edition of the layer table, which is 1 where nothing is said.
fn edition_of(said: Option<u32>) -> u32
    ensures { result ≡ table_meant said }
{
    match said {
        Some(edition) => edition,
        None => 1,
    }
}

pub fn terms_of(head: Head, tail: Tail, pass: Pass) -> Terms
    ensures { result ≡ terms_of head tail pass }
{
    let sign = head.sign;
    let said = tail.table;
    let edition = edition_of(said);
    Terms {
        limit: tail.limit,
        pass,
        sign,
        edition,
    }
}
