// The geometry's questions asked by themselves. None has a `requires`: a coordinate that is not finite or
// is above 2,097,152 in magnitude is refused by 2, and then a NaN in the result by 6. A box and a ray's reply
// hold no NaN, so they are refused by 2 alone.
ghost use Rattle.std.specs.Prelude.{◌≡◌};
ghost use Rattle.refusals.specs.Numbers.{reply_of};
ghost use Rattle.ask_geo.specs.Asked as Asked;

use geo_box::TriangleBox;
use geo_ray::RayHit;
use point::{Axis, Point};
use refusals::Refusal;

#[tactic(auto, unfolding(crate::specs::Asked::within))]
fn within(p: Point) -> bool
    ensures { result ≡ Asked.within p }
{
    float::finite_at_most(p.x, 2097152.0)
        & float::finite_at_most(p.y, 2097152.0)
        & float::finite_at_most(p.z, 2097152.0)
}

#[tactic(auto, unfolding(crate::specs::Asked::point_nan))]
fn point_nan(p: Point) -> bool
    ensures { result ≡ Asked.point_nan p }
{
    p.x.is_nan() | p.y.is_nan() | p.z.is_nan()
}

// The result with both checks made.
fn answer<T: Copy>(inside: bool, nan: bool, x: T) -> Result<T, Refusal>
    ensures { reply_of result ≡ Asked.answered inside (λ _. nan) x }
{
    if !inside {
        return Err(Refusal::WrongVertices);
    }
    if nan {
        return Err(Refusal::NotANumber);
    }
    Ok(x)
}

pub fn triangle_bounding_box(a: Point, b: Point, c: Point) -> Result<TriangleBox, Refusal>
    ensures answered { reply_of result ≡ Asked.asked_box a b c }
    ensures never_6 { reply_of result ≡ Asked.box_or_2 a b c }
{
    let inside = within(a) & within(b) & within(c);
    if !inside {
        return Err(Refusal::WrongVertices);
    }
    Ok(geo_box::triangle_bounding_box(a, b, c))
}

pub fn closest_point_segment(p: Point, a: Point, b: Point) -> Result<Point, Refusal>
    ensures { reply_of result ≡ Asked.asked_segment p a b }
{
    let inside = within(p) & within(a) & within(b);
    let closest = geo_closest::closest_point_segment(p, a, b);
    answer(inside, point_nan(closest), closest)
}

pub fn closest_point_triangle(p: Point, a: Point, b: Point, c: Point) -> Result<Point, Refusal>
    ensures { reply_of result ≡ Asked.asked_triangle p a b c }
{
    let inside = within(p) & within(a) & within(b) & within(c);
    let closest = geo_closest_branching::closest_point_triangle(p, a, b, c);
    answer(inside, point_nan(closest), closest)
}

pub fn point_triangle_distance(p: Point, a: Point, b: Point, c: Point) -> Result<f32, Refusal>
    ensures { reply_of result ≡ Asked.asked_distance p a b c }
{
    let inside = within(p) & within(a) & within(b) & within(c);
    let distance = geo_distance::point_triangle_distance(p, a, b, c);
    answer(inside, distance.is_nan(), distance)
}

pub fn point_triangle_signed_distance(
    p: Point,
    a: Point,
    b: Point,
    c: Point,
) -> Result<f32, Refusal>
    ensures { reply_of result ≡ Asked.asked_signed_distance p a b c }
{
    let inside = within(p) & within(a) & within(b) & within(c);
    let distance = geo_side::point_triangle_signed_distance(p, a, b, c);
    answer(inside, distance.is_nan(), distance)
}

pub fn ray_triangle_intersection_aligned(
    o: Point,
    v0: Point,
    v1: Point,
    v2: Point,
    axis: Axis,
) -> Result<RayHit, Refusal>
    ensures answered { reply_of result ≡ Asked.asked_ray o v0 v1 v2 axis }
    ensures never_6 { reply_of result ≡ Asked.ray_or_2 o v0 v1 v2 axis }
{
    let inside = within(o) & within(v0) & within(v1) & within(v2);
    if !inside {
        return Err(Refusal::WrongVertices);
    }
    Ok(geo_ray::ray_triangle_intersection_aligned(o, v0, v1, v2, axis))
}
