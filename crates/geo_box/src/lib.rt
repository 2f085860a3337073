// The box round a triangle, a little larger than the triangle is. A part of `ask_geo`.
#![tactic(auto)]

ghost use Rattle.std.specs.Prelude.{◌≡◌};
ghost use Rattle.geo_box.specs.Box as Box;

use point::Point;

#[derive(Clone, Copy)]
pub struct TriangleBox {
    pub low: Point,
    pub high: Point,
}

#[tactic(auto, unfolding(crate::specs::Box::least_of3))]
fn least3(a: f32, b: f32, c: f32) -> f32
    ensures { result ≡ Box.least_of3 a b c }
{
    float::least(a, float::least(b, c))
}

#[tactic(auto, unfolding(crate::specs::Box::greatest_of3))]
fn greatest3(a: f32, b: f32, c: f32) -> f32
    ensures { result ≡ Box.greatest_of3 a b c }
{
    float::greatest(a, float::greatest(b, c))
}

#[tactic(auto, unfolding(crate::specs::Box::padded_box))]
pub fn triangle_bounding_box(a: Point, b: Point, c: Point) -> TriangleBox
    ensures { result ≡ Box.padded_box a b c }
{
    let low = Point {
        x: least3(a.x, b.x, c.x) - 0.0001,
        y: least3(a.y, b.y, c.y) - 0.0001,
        z: least3(a.z, b.z, c.z) - 0.0001,
    };
    let high = Point {
        x: greatest3(a.x, b.x, c.x) + 0.0001,
        y: greatest3(a.y, b.y, c.y) + 0.0001,
        z: greatest3(a.z, b.z, c.z) + 0.0001,
    };
    TriangleBox { low, high }
}
