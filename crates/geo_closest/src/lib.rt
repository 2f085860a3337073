// The point of a segment and of a triangle that is closest to a point, after Embree. What depends on the
// triangle alone is a `Facet`, made once for many points. Here are its parts, and a triangle with equal corners;
// `geo_closest_branching` has the others. A part of `ask_geo`.
#![tactic(auto)]

ghost use Rattle.std.specs.Prelude.{◌≡◌};
ghost use Rattle.point.specs.Point.{◌+ᵥ◌, ◌*ᵥ◌};
ghost use Rattle.geo_closest.specs.Closest as Closest;

use point::Point;

// A triangle made ready: its corners, its edges, and whether two of its corners are equal.
#[derive(Clone, Copy)]
pub struct Facet {
    pub a: Point,
    pub b: Point,
    pub c: Point,
    pub ab: Point,
    pub ac: Point,
    pub bc: Point,
    pub equal: bool,
}

// Where a point lies along the edges ab and ac, seen from a (d1, d2), from b (d3, d4) and from c (d5, d6).
#[derive(Clone, Copy)]
pub struct Dots {
    pub d1: f32,
    pub d2: f32,
    pub d3: f32,
    pub d4: f32,
    pub d5: f32,
    pub d6: f32,
}

// From `o` along `e`, as far as `t` says: the source's `o.add(&e.fmul(t))`.
pub fn step(o: Point, e: Point, t: f32) -> Point
    ensures { result ≡ o +ᵥ e *ᵥ t }
{
    Point {
        x: o.x + e.x * t,
        y: o.y + e.y * t,
        z: o.z + e.z * t,
    }
}

#[tactic(auto, unfolding(crate::specs::Closest::closest_point_segment))]
pub fn closest_point_segment(p: Point, a: Point, b: Point) -> Point
    ensures { result ≡ Closest.closest_point_segment p a b }
{
    let ab = b.sub(a);
    let ap = p.sub(a);
    let s12 = float::clamp01(ab.dot(ap) / ab.dot(ab));
    step(a, ab, s12)
}

#[tactic(auto, unfolding(crate::specs::Closest::facet_of))]
pub fn facet_of(a: Point, b: Point, c: Point) -> Facet
    ensures { result ≡ Closest.facet_of a b c }
{
    let ab = b.sub(a);
    let ac = c.sub(a);
    let bc = c.sub(b);
    let equal = a.same(b) | b.same(c) | a.same(c);
    Facet {
        a,
        b,
        c,
        ab,
        ac,
        bc,
        equal,
    }
}

#[tactic(auto, unfolding(crate::specs::Closest::dots_of))]
pub fn dots_of(f: Facet, p: Point) -> Dots
    ensures { result ≡ Closest.dots_of f p }
{
    let ap = p.sub(f.a);
    let bp = p.sub(f.b);
    let cp = p.sub(f.c);
    Dots {
        d1: f.ab.dot(ap),
        d2: f.ac.dot(ap),
        d3: f.ab.dot(bp),
        d4: f.ac.dot(bp),
        d5: f.ab.dot(cp),
        d6: f.ac.dot(cp),
    }
}

// A triangle of which two corners are equal is a segment or a point.
#[tactic(auto, unfolding(crate::specs::Closest::closest_point_equal))]
pub fn closest_point_equal(p: Point, a: Point, b: Point, c: Point) -> Point
    ensures { result ≡ Closest.closest_point_equal p a b c }
{
    let ab = a.same(b);
    if ab & b.same(c) & a.same(c) {
        return a;
    }
    if ab {
        return closest_point_segment(p, a, c);
    }
    closest_point_segment(p, a, b)
}
