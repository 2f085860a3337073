// The answers of the grid's questions, as C gets them: a function for each kind, since C's layout gives each kind its record.
#![tactic(auto)]

ghost use Rattle.std.specs.Prelude.{◌≡◌};
ghost use Rattle.refusals.specs.Numbers.{reply_of};
ghost use Rattle.c_records.specs.C as C;

use c_records::{
    SdfBoxAnswer, SdfCellAnswer, SdfGridAnswer, SdfNumberAnswer, SdfPointAnswer, SdfSnapAnswer,
};
use grid::{BoundingBox, Cell, Counts, Grid, Snap, SnapResult};
use point::Point;
use refusals::Refusal;

#[tactic(auto, unfolding(c_records::specs::C::number_for_c))]
pub fn number_answer(a: Result<u32, Refusal>) -> SdfNumberAnswer
    ensures { result ≡ C.number_for_c (reply_of a) }
{
    match a {
        Err(r) => SdfNumberAnswer {
            number: r.number(),
            value: 0,
        },
        Ok(i) => SdfNumberAnswer {
            number: 0,
            value: i,
        },
    }
}

#[tactic(auto, unfolding(c_records::specs::C::cell_for_c))]
pub fn cell_answer(a: Result<Cell, Refusal>) -> SdfCellAnswer
    ensures { result ≡ C.cell_for_c (reply_of a) }
{
    match a {
        Err(r) => SdfCellAnswer {
            number: r.number(),
            cell: c_records::no_cell(),
        },
        Ok(c) => SdfCellAnswer {
            number: 0,
            cell: c.into(),
        },
    }
}

#[tactic(auto, unfolding(c_records::specs::C::counts_for_c))]
pub fn counts_answer(a: Result<Counts, Refusal>) -> SdfCellAnswer
    ensures { result ≡ C.counts_for_c (reply_of a) }
{
    match a {
        Err(r) => SdfCellAnswer {
            number: r.number(),
            cell: c_records::no_cell(),
        },
        Ok(c) => SdfCellAnswer {
            number: 0,
            cell: c.into(),
        },
    }
}

#[tactic(auto, unfolding(c_records::specs::C::point_for_c))]
pub fn point_answer(a: Result<Point, Refusal>) -> SdfPointAnswer
    ensures { result ≡ C.point_for_c (reply_of a) }
{
    match a {
        Err(r) => SdfPointAnswer {
            number: r.number(),
            point: c_records::no_point(),
        },
        Ok(p) => SdfPointAnswer {
            number: 0,
            point: p.into(),
        },
    }
}

#[tactic(auto, unfolding(c_records::specs::C::box_for_c))]
pub fn box_answer(a: Result<BoundingBox, Refusal>) -> SdfBoxAnswer
    ensures { result ≡ C.box_for_c (reply_of a) }
{
    match a {
        Err(r) => SdfBoxAnswer {
            number: r.number(),
            min: c_records::no_point(),
            max: c_records::no_point(),
        },
        Ok(b) => SdfBoxAnswer {
            number: 0,
            min: b.min.into(),
            max: b.max.into(),
        },
    }
}

fn inside(res: SnapResult) -> u32
    ensures { result ≡ C.inside_for_c res }
{
    match res {
        SnapResult::Inside => 1,
        SnapResult::Outside => 0,
    }
}

#[tactic(auto, unfolding(c_records::specs::C::snap_for_c))]
pub fn snap_answer(a: Result<Snap, Refusal>) -> SdfSnapAnswer
    ensures { result ≡ C.snap_for_c (reply_of a) }
{
    match a {
        Err(r) => SdfSnapAnswer {
            number: r.number(),
            inside: 0,
            cell: c_records::no_cell(),
        },
        Ok(s) => SdfSnapAnswer {
            number: 0,
            inside: inside(s.result),
            cell: s.cell.into(),
        },
    }
}

#[tactic(auto, unfolding(c_records::specs::C::grid_for_c))]
pub fn grid_answer(a: Result<Grid, Refusal>) -> SdfGridAnswer
    ensures { result ≡ C.grid_for_c (reply_of a) }
{
    match a {
        Err(r) => SdfGridAnswer {
            number: r.number(),
            grid: c_records::no_grid(),
        },
        Ok(g) => SdfGridAnswer {
            number: 0,
            grid: g.into(),
        },
    }
}
