// What C hands in and gets back: records with C's layout, by value. An answer has document 01's number, 0
// where a value is given, and the value, all zero where it is refused. The answers are made by `c_grid`
// and `c_geo`.
#![tactic(auto)]

ghost use Rattle.std.specs.Prelude.{◌≡◌};
ghost use Rattle.c_records.specs.C as C;

use grid::{Cell, Counts, Grid};
use point::Point;
use terms::{Pass, SignMethod, Terms};

#[repr(C)]
#[derive(Clone, Copy)]
pub struct SdfPoint {
    pub x: f32,
    pub y: f32,
    pub z: f32,
}

// A cell, or how many cells there are along each axis.
#[repr(C)]
#[derive(Clone, Copy)]
pub struct SdfCell {
    pub x: u32,
    pub y: u32,
    pub z: u32,
}

// `upright` is 0 for x, 1 for y, 2 for z; any other number is out of bounds. Behind the others, so that a record which C
// initialises by position and leaves short has 0 there.
#[repr(C)]
#[derive(Clone, Copy)]
pub struct SdfGrid {
    pub first: SdfPoint,
    pub size: SdfPoint,
    pub count: SdfCell,
    pub upright: u32,
}

// What a job is asked for by value, beside the grid and the mesh. `pass` is 0 for the plain pass, `sign` 0 for Raycast.
// `edition`, of the layer table, is 1 or 2; behind the others, so that a record which C initialises by position and leaves
// short has 0 there, which is refused.
#[repr(C)]
#[derive(Clone, Copy)]
pub struct SdfTerms {
    pub limit: u32,
    pub pass: u32,
    pub sign: u32,
    pub edition: u32,
}

#[repr(C)]
#[derive(Clone, Copy)]
pub struct SdfNumberAnswer {
    pub number: u32,
    pub value: u32,
}

#[repr(C)]
#[derive(Clone, Copy)]
pub struct SdfCellAnswer {
    pub number: u32,
    pub cell: SdfCell,
}

#[repr(C)]
#[derive(Clone, Copy)]
pub struct SdfPointAnswer {
    pub number: u32,
    pub point: SdfPoint,
}

#[repr(C)]
#[derive(Clone, Copy)]
pub struct SdfBoxAnswer {
    pub number: u32,
    pub min: SdfPoint,
    pub max: SdfPoint,
}

// `inside` is 1 for a point inside the grid, and 0 for one outside, whose nearest cell is given.
#[repr(C)]
#[derive(Clone, Copy)]
pub struct SdfSnapAnswer {
    pub number: u32,
    pub inside: u32,
    pub cell: SdfCell,
}

#[repr(C)]
#[derive(Clone, Copy)]
pub struct SdfGridAnswer {
    pub number: u32,
    pub grid: SdfGrid,
}

#[repr(C)]
#[derive(Clone, Copy)]
pub struct SdfDistanceAnswer {
    pub number: u32,
    pub distance: f32,
}

// `hit` is 1 for a hit at t. `grazed` is 1 for a ray that grazed, which is no hit. Both are 0 for a miss.
#[repr(C)]
#[derive(Clone, Copy)]
pub struct SdfRayAnswer {
    pub number: u32,
    pub hit: u32,
    pub grazed: u32,
    pub t: f32,
}

// `order` is -1 for less, 0 for equal, 1 for greater.
#[repr(C)]
#[derive(Clone, Copy)]
pub struct SdfOrderAnswer {
    pub number: u32,
    pub order: i32,
}

// ---- handed in

impl From<SdfPoint> for Point {
    ghost from_gives = { λ p q. q ≡ C.point_in p };

    fn from(p: SdfPoint) -> Point {
        Point {
            x: p.x,
            y: p.y,
            z: p.z,
        }
    }
}

impl From<SdfCell> for Cell {
    ghost from_gives = { λ c d. d ≡ C.cell_in c };

    fn from(c: SdfCell) -> Cell {
        Cell {
            x: c.x,
            y: c.y,
            z: c.z,
        }
    }
}

impl From<SdfCell> for Counts {
    ghost from_gives = { λ c n. n ≡ C.counts_in c };

    fn from(c: SdfCell) -> Counts {
        Counts {
            x: c.x,
            y: c.y,
            z: c.z,
        }
    }
}

impl From<SdfGrid> for Grid {
    ghost from_gives = { λ g h. h ≡ C.grid_in g };

    fn from(asked: SdfGrid) -> Grid {
        let count = asked.count;
        Grid {
            first_cell: asked.first.into(),
            cell_size: asked.size.into(),
            count_x: count.x,
            count_y: count.y,
            count_z: count.z,
            upright: asked.upright,
        }
    }
}

impl From<SdfTerms> for Terms {
    ghost from_gives = { λ t u. u ≡ C.terms_in t };

    fn from(t: SdfTerms) -> Terms {
        Terms {
            limit: t.limit,
            pass: pass_in(t.pass),
            sign: sign_in(t.sign),
            edition: t.edition,
        }
    }
}

// Functions, since a number and an enum of another crate take no `From` here.
pub fn pass_in(pass: u32) -> Pass
    ensures { result ≡ C.pass_in pass }
{
    if pass == 0 {
        return Pass::Plain;
    }
    Pass::Quick
}

pub fn sign_in(sign: u32) -> SignMethod
    ensures { result ≡ C.sign_in sign }
{
    if sign == 0 {
        return SignMethod::Raycast;
    }
    SignMethod::Normal
}

// ---- handed out

impl From<Point> for SdfPoint {
    ghost from_gives = { λ p q. q ≡ C.point_out p };

    fn from(p: Point) -> SdfPoint {
        SdfPoint {
            x: p.x,
            y: p.y,
            z: p.z,
        }
    }
}

impl From<Cell> for SdfCell {
    ghost from_gives = { λ c d. d ≡ C.cell_out c };

    fn from(c: Cell) -> SdfCell {
        SdfCell {
            x: c.x,
            y: c.y,
            z: c.z,
        }
    }
}

impl From<Counts> for SdfCell {
    ghost from_gives = { λ n c. c ≡ C.counts_out n };

    fn from(n: Counts) -> SdfCell {
        SdfCell {
            x: n.x,
            y: n.y,
            z: n.z,
        }
    }
}

impl From<Grid> for SdfGrid {
    ghost from_gives = { λ g h. h ≡ C.grid_out g };

    fn from(g: Grid) -> SdfGrid {
        SdfGrid {
            first: g.first_cell.into(),
            size: g.cell_size.into(),
            count: SdfCell {
                x: g.count_x,
                y: g.count_y,
                z: g.count_z,
            },
            upright: g.upright,
        }
    }
}

pub fn no_point() -> SdfPoint
    ensures { result ≡ C.no_point }
{
    SdfPoint {
        x: 0.0,
        y: 0.0,
        z: 0.0,
    }
}

pub fn no_cell() -> SdfCell
    ensures { result ≡ C.no_cell }
{
    SdfCell { x: 0, y: 0, z: 0 }
}

pub fn no_grid() -> SdfGrid
    ensures { result ≡ C.no_grid }
{
    SdfGrid {
        first: no_point(),
        size: no_point(),
        count: no_cell(),
        upright: 0,
    }
}
