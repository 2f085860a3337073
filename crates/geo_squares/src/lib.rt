// The squared distances of a triangle from many points, by themselves and with the sign of the side: the run's inner
// loop, which has no branch. Which form the triangle has is asked once for all points. A part of the port: users call `sdf`.
#![tactic(auto)]

ghost use Rattle.std.specs.Prelude.{◌≡◌, ◌<◌, length};
ghost use Rattle.geo_squares.specs.Squares.{point_at, Alongside, GivenBy, Squares, SignedSquares};

use geo_closest::Facet;
use point::Point;

// The point i of a row of points, whose coordinates stand in xs, ys and zs.
fn point_at(xs: &[f32], ys: &[f32], zs: &[f32], i: usize) -> Point
    requires { (i < length xs.now) × (i < length ys.now) × (i < length zs.now) }
    ensures { result ≡ point_at xs.now ys.now zs.now i }
{
    Point {
        x: xs[i],
        y: ys[i],
        z: zs[i],
    }
}

// Gives each point of a row its value.
fn give_each<F: Fn(Point) -> f32>(value: F, xs: &[f32], ys: &[f32], zs: &[f32], out: &mut [f32])
    requires callable { F.IsAlwaysCallable value }
    requires alongside { Alongside xs.now ys.now zs.now out.old }
    ensures { GivenBy (F.post value) xs.now ys.now zs.now out.new }
{
    for i in 0..xs.len() {
        out[i] = value(point_at(xs, ys, zs, i));
    }
}

// The squared distances to `f` of the points whose coordinates stand in xs, ys and zs: to the one point or to the segment that a
// triangle with equal corners is, and else to the point that the regions give, which is the closest where the corners are three.
pub fn squares_on(f: Facet, xs: &[f32], ys: &[f32], zs: &[f32], out: &mut [f32])
    requires { Alongside xs.now ys.now zs.now out.old }
    ensures { Squares f xs.now ys.now zs.now out.new }
{
    let equal = f.equal;
    let a = f.a;
    if equal {
        if geo_distance::one_point(f) {
            give_each(|p| geo_distance::square(p, a), xs, ys, zs, out);
        } else {
            let b = geo_distance::other_end(f);
            give_each(
                |p| geo_distance::square(p, geo_closest::closest_point_segment(p, a, b)),
                xs,
                ys,
                zs,
                out,
            );
        }
    } else {
        give_each(
            |p| geo_distance::square(p, geo_closest_branchless::nearest_to(f, p)),
            xs,
            ys,
            zs,
            out,
        );
    }
}

// The same, each with the sign of the side of `f` on which the point lies. The normal is worked out once. Triangles with equal corners
// are few: for them the closest point is found with branches.
pub fn signed_squares_on(f: Facet, xs: &[f32], ys: &[f32], zs: &[f32], out: &mut [f32])
    requires { Alongside xs.now ys.now zs.now out.old }
    ensures { SignedSquares f xs.now ys.now zs.now out.new }
{
    let equal = f.equal;
    let n = geo_side::normal_of(f);
    if equal {
        give_each(
            |p| geo_side::signed_square_to(n, p, geo_closest_branching::closest_on(f, p)),
            xs,
            ys,
            zs,
            out,
        );
    } else {
        give_each(
            |p| geo_side::signed_square_to(n, p, geo_closest_branchless::nearest_to(f, p)),
            xs,
            ys,
            zs,
            out,
        );
    }
}
