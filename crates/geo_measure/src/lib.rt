// By what a triangle is measured from a point: its distance, where rays give the signs, or its signed distance. A part of the
// port: users call `sdf`.
#![tactic(auto)]

ghost use Rattle.geo_squares.specs.Squares.{Alongside, Values};
ghost use Rattle.geo_measure.specs.Measured.{squared_by};

use geo_closest::Facet;
use terms::SignMethod;

// The squares to `f` of the points whose coordinates stand in xs, ys and zs. The method is asked once for all of them.
pub fn squares_by(sign: SignMethod, f: Facet, xs: &[f32], ys: &[f32], zs: &[f32], out: &mut [f32])
    requires { Alongside xs.now ys.now zs.now out.old }
    ensures { Values (squared_by sign f) xs.now ys.now zs.now out.new }
{
    match sign {
        SignMethod::Raycast => {
            geo_squares::squares_on(f, xs, ys, zs, out);
        }
        SignMethod::Normal => {
            geo_squares::signed_squares_on(f, xs, ys, zs, out);
        }
    }
}
