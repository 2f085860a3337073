// The closest point of a triangle of three different corners, with no branch. Each step is small, so that the
// compiler puts all of it into a loop over many points and takes several at a time. A part of `ask_geo`.
#![tactic(auto)]

ghost use Rattle.std.specs.Prelude.{◌≡◌, cond};
ghost use Rattle.geo_closest.specs.Closest.{nearest, dots_of};
ghost use Rattle.geo_closest_branchless.specs.Flat as Flat;

use geo_closest::{Dots, Facet};
use point::Point;

// The outcomes of the six tests. The first that passes names the region, and inside is where none does.
#[derive(Clone, Copy)]
pub struct Regions {
    pub a: bool,
    pub b: bool,
    pub c: bool,
    pub ab: bool,
    pub ac: bool,
    pub bc: bool,
}

fn regions_of(d: Dots) -> Regions
    ensures { result ≡ Flat.regions_of d }
{
    let d1 = d.d1;
    let d2 = d.d2;
    let d3 = d.d3;
    let d4 = d.d4;
    let d5 = d.d5;
    let d6 = d.d6;
    let vc = d1 * d4 - d3 * d2;
    let vb = d5 * d2 - d1 * d6;
    let va = d3 * d6 - d5 * d4;
    Regions {
        a: (d1 <= 0.0) & (d2 <= 0.0),
        b: (d3 >= 0.0) & (d4 <= d3),
        c: (d6 >= 0.0) & (d5 <= d6),
        ab: (vc <= 0.0) & (d1 >= 0.0) & (d3 <= 0.0),
        ac: (vb <= 0.0) & (d2 >= 0.0) & (d6 <= 0.0),
        bc: (va <= 0.0) & (d4 - d3 >= 0.0) & (d5 - d6 >= 0.0),
    }
}

fn pick(c: bool, a: f32, b: f32) -> f32
    ensures { result ≡ cond c a b }
{
    if c { a } else { b }
}

fn pick_point(c: bool, a: Point, b: Point) -> Point
    ensures { result ≡ cond c a b }
{
    if c { a } else { b }
}

fn first(x: bool, y: bool, z: bool, a: f32, b: f32, c: f32, e: f32) -> f32
    ensures { result ≡ Flat.pick_first x y z a b c e }
{
    if x {
        a
    } else if y {
        b
    } else if z {
        c
    } else {
        e
    }
}

// The parameter of the edge, or 1 / (va + vb + vc): one division for every region.
fn ratio(g: Regions, d: Dots) -> f32
    ensures { result ≡ Flat.ratio g d }
{
    let d1 = d.d1;
    let d2 = d.d2;
    let d3 = d.d3;
    let d4 = d.d4;
    let d5 = d.d5;
    let d6 = d.d6;
    let sum = (d3 * d6 - d5 * d4) + (d5 * d2 - d1 * d6) + (d1 * d4 - d3 * d2);
    first(g.ab, g.ac, g.bc, d1, d2, d4 - d3, 1.0)
        / first(
            g.ab,
            g.ac,
            g.bc,
            d1 - d3,
            d2 - d6,
            (d4 - d3) + (d5 - d6),
            sum,
        )
}

// The corner that the region is, or from which its edge starts.
fn start(g: Regions, f: Facet) -> Point
    ensures { result ≡ Flat.start g f }
{
    let from_b = !g.a & (g.b | !g.c & !g.ab & !g.ac & g.bc);
    let from_c = !g.a & !g.b & g.c;
    pick_point(from_b, f.b, pick_point(from_c, f.c, f.a))
}

// The first edge to go along.
fn way(g: Regions, f: Facet) -> Point
    ensures { result ≡ Flat.way g f }
{
    let on_ac = !g.ab & g.ac;
    let on_bc = !g.ab & !g.ac & g.bc;
    pick_point(on_ac, f.ac, pick_point(on_bc, f.bc, f.ab))
}

// From the start along the first edge, and inside along ac too.
fn place(g: Regions, f: Facet, d: Dots, q: f32) -> Point
    ensures { result ≡ Flat.place g f d q }
{
    let v = (d.d5 * d.d2 - d.d1 * d.d6) * q;
    let w = (d.d1 * d.d4 - d.d3 * d.d2) * q;
    let edge = g.ab | g.ac | g.bc;
    let o = start(g, f);
    let corner = g.a | g.b | g.c;
    let s = geo_closest::step(o, way(g, f), pick(edge, q, v));
    let i = pick_point(edge, s, geo_closest::step(s, f.ac, w));
    pick_point(corner, o, i)
}

// The closest point with no branch, into whose loop it must be put whole: else the compiler does not take several points at a time.
#[inline(always)]
pub fn nearest_to(f: Facet, p: Point) -> Point
    ensures { result ≡ nearest (dots_of f p) f }
{
    let d = geo_closest::dots_of(f, p);
    let g = regions_of(d);
    place(g, f, d, ratio(g, d))
}
