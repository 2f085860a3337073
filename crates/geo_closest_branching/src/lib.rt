// The regions of a triangle, after Embree, and with them the point of it that is closest to a point. A part of
// `ask_geo`.
#![tactic(auto)]

ghost use Rattle.std.specs.Prelude.{◌≡◌};
ghost use Rattle.geo_closest.specs.Closest as Closest;

use geo_closest::{Dots, Facet};
use point::Point;

// The first region whose test passes, and inside where none does. The tests are joined by `&`: a branch
// on each part costs more than the comparisons.
pub fn nearest(d: Dots, f: Facet) -> Point
    ensures { result ≡ Closest.nearest d f }
{
    let a = f.a;
    let b = f.b;
    let c = f.c;
    let d1 = d.d1;
    let d2 = d.d2;
    let d3 = d.d3;
    let d4 = d.d4;
    let d5 = d.d5;
    let d6 = d.d6;
    if (d1 <= 0.0) & (d2 <= 0.0) {
        return a;
    }
    if (d3 >= 0.0) & (d4 <= d3) {
        return b;
    }
    if (d6 >= 0.0) & (d5 <= d6) {
        return c;
    }
    let vc = d1 * d4 - d3 * d2;
    if (vc <= 0.0) & (d1 >= 0.0) & (d3 <= 0.0) {
        return geo_closest::step(a, f.ab, d1 / (d1 - d3));
    }
    let vb = d5 * d2 - d1 * d6;
    if (vb <= 0.0) & (d2 >= 0.0) & (d6 <= 0.0) {
        return geo_closest::step(a, f.ac, d2 / (d2 - d6));
    }
    let va = d3 * d6 - d5 * d4;
    if (va <= 0.0) & (d4 - d3 >= 0.0) & (d5 - d6 >= 0.0) {
        return geo_closest::step(b, f.bc, (d4 - d3) / ((d4 - d3) + (d5 - d6)));
    }
    let denom = 1.0 / (va + vb + vc);
    geo_closest::step(geo_closest::step(a, f.ab, vb * denom), f.ac, vc * denom)
}

pub fn closest_on(f: Facet, p: Point) -> Point
    ensures { result ≡ Closest.closest_on f p }
{
    let equal = f.equal;
    if equal {
        return geo_closest::closest_point_equal(p, f.a, f.b, f.c);
    }
    nearest(geo_closest::dots_of(f, p), f)
}

pub fn closest_point_triangle(p: Point, a: Point, b: Point, c: Point) -> Point
    ensures { result ≡ Closest.closest_point_triangle p a b c }
{
    closest_on(geo_closest::facet_of(a, b, c), p)
}
