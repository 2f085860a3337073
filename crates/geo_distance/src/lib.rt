// The distance of a point to a triangle, and its square, which spares the root where it is not needed; and to what a
// triangle with equal corners comes down, which `geo_squares` asks once for many points.
// A part of `ask_geo`.
#![tactic(auto)]

ghost use Rattle.std.specs.Prelude.{◌≡◌, ◌&&◌, cond};
ghost use Rattle.point.specs.Point.{◌-ᵥ◌, ◌·◌, ◌≐ᵥ◌};
ghost use Rattle.geo_distance.specs.Distance as Distance;

use geo_closest::Facet;
use point::Point;

// The squared length of p - q.
pub fn square(p: Point, q: Point) -> f32
    ensures { result ≡ (p -ᵥ q) · (p -ᵥ q) }
{
    let v = p.sub(q);
    v.dot(v)
}

pub fn squared_on(f: Facet, p: Point) -> f32
    ensures { result ≡ Distance.squared_on f p }
{
    square(p, geo_closest_branching::closest_on(f, p))
}

pub fn distance_on(f: Facet, p: Point) -> f32
    ensures { result ≡ Distance.distance_on f p }
{
    float_root::sqrt(squared_on(f, p))
}

pub fn point_triangle_distance(p: Point, a: Point, b: Point, c: Point) -> f32
    ensures { result ≡ Distance.distance p a b c }
{
    distance_on(geo_closest::facet_of(a, b, c), p)
}

// Whether all three corners of a triangle are one point.
pub fn one_point(f: Facet) -> bool
    ensures { result ≡ (f.a ≐ᵥ f.b) && (f.b ≐ᵥ f.c) && (f.a ≐ᵥ f.c) }
{
    let a = f.a;
    let b = f.b;
    let c = f.c;
    a.same(b) & b.same(c) & a.same(c)
}

// Where the segment from a ends that a triangle is of which two corners are equal.
pub fn other_end(f: Facet) -> Point
    ensures { result ≡ cond (f.a ≐ᵥ f.b) f.c f.b }
{
    let a = f.a;
    let b = f.b;
    let c = f.c;
    if a.same(b) { c } else { b }
}
