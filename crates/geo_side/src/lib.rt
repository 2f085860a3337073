// On which side of a triangle a point lies, and its signed distance: positive where the triangle's normal points to,
// negative elsewhere. Its square, with the same sign, spares the root where it is not needed. A part of `ask_geo`.
#![tactic(auto)]

ghost use Rattle.std.specs.Prelude.{◌≡◌};
ghost use Rattle.geo_side.specs.Side as Side;

use geo_closest::Facet;
use point::Point;

// The source's `triangle_normal`, which is not normalised.
pub fn normal_of(f: Facet) -> Point
    ensures { result ≡ Side.normal_of f }
{
    let ab = f.ab;
    ab.cross(f.ac)
}

// A length with its sign. There is no branch on it, so that a loop over many points can be vector code.
fn sided(up: bool, d: f32) -> f32
    ensures { result ≡ Side.sided up d }
{
    if up { d } else { -d }
}

// Whether the vector v points to the same side as the normal n. A dot of exactly 0 gives the negative.
fn ahead(v: Point, n: Point) -> bool
    ensures { result ≡ Side.ahead v n }
{
    v.dot(n) > 0.0
}

// The squared length of p - q, with the sign of the side of q on which p lies.
pub fn signed_square_to(n: Point, p: Point, q: Point) -> f32
    ensures { result ≡ Side.signed_square_to n p q }
{
    let v = p.sub(q);
    sided(ahead(v, n), v.dot(v))
}

pub fn signed_on(f: Facet, p: Point) -> f32
    ensures { result ≡ Side.signed_on f p }
{
    let v = p.sub(geo_closest_branching::closest_on(f, p));
    sided(ahead(v, normal_of(f)), v.length())
}

pub fn point_triangle_signed_distance(p: Point, a: Point, b: Point, c: Point) -> f32
    ensures { result ≡ Side.signed_distance p a b c }
{
    signed_on(geo_closest::facet_of(a, b, c), p)
}
