// The answers of the geometry and of the comparison, as C gets them: a function for each record of C. A
// closest point is answered as a grid's point is, by `c_grid`.
#![tactic(auto)]

ghost use Rattle.std.specs.Prelude.{◌≡◌};
ghost use Rattle.refusals.specs.Numbers.{reply_of};
ghost use Rattle.c_records.specs.C as C;

use ask_geo::{RayHit, TriangleBox};
use c_records::{SdfBoxAnswer, SdfDistanceAnswer, SdfOrderAnswer, SdfRayAnswer};
use refusals::Refusal;
use std::cmp::Ordering;

#[tactic(auto, unfolding(c_records::specs::C::triangle_box_for_c))]
pub fn triangle_box_answer(a: Result<TriangleBox, Refusal>) -> SdfBoxAnswer
    ensures { result ≡ C.triangle_box_for_c (reply_of a) }
{
    match a {
        Err(r) => SdfBoxAnswer {
            number: r.number(),
            min: c_records::no_point(),
            max: c_records::no_point(),
        },
        Ok(b) => SdfBoxAnswer {
            number: 0,
            min: b.low.into(),
            max: b.high.into(),
        },
    }
}

#[tactic(auto, unfolding(c_records::specs::C::distance_for_c))]
pub fn distance_answer(a: Result<f32, Refusal>) -> SdfDistanceAnswer
    ensures { result ≡ C.distance_for_c (reply_of a) }
{
    match a {
        Err(r) => SdfDistanceAnswer {
            number: r.number(),
            distance: 0.0,
        },
        Ok(d) => SdfDistanceAnswer {
            number: 0,
            distance: d,
        },
    }
}

#[tactic(auto, unfolding(c_records::specs::C::ray_for_c))]
pub fn ray_answer(a: Result<RayHit, Refusal>) -> SdfRayAnswer
    ensures { result ≡ C.ray_for_c (reply_of a) }
{
    match a {
        Err(r) => SdfRayAnswer {
            number: r.number(),
            hit: 0,
            grazed: 0,
            t: 0.0,
        },
        Ok(h) => match h {
            RayHit::Miss => SdfRayAnswer {
                number: 0,
                hit: 0,
                grazed: 0,
                t: 0.0,
            },
            RayHit::Grazed => SdfRayAnswer {
                number: 0,
                hit: 0,
                grazed: 1,
                t: 0.0,
            },
            RayHit::Hit(t) => SdfRayAnswer {
                number: 0,
                hit: 1,
                grazed: 0,
                t: t,
            },
        },
    }
}

// ---- the answer of the comparison

#[tactic(auto, unfolding(c_records::specs::C::comparison))]
pub fn order_answer(a: Result<Ordering, Refusal>) -> SdfOrderAnswer
    ensures { result ≡ C.comparison a }
{
    match a {
        Err(r) => SdfOrderAnswer {
            number: r.number(),
            order: 0,
        },
        Ok(o) => match o {
            Ordering::Less => SdfOrderAnswer {
                number: 0,
                order: -1,
            },
            Ordering::Equal => SdfOrderAnswer {
                number: 0,
                order: 0,
            },
            Ordering::Greater => SdfOrderAnswer {
                number: 0,
                order: 1,
            },
        },
    }
}
