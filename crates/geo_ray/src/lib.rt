// Where a ray along an axis meets a triangle. The test is cut into the part of the triangle, which is made
// once, and the parts of the origin's three coordinates, so that a pass over many rays works out each
// product once for all the rays that share it. The operations stay those of the source, in its order. A part of
// `ask_geo`.
#![tactic(auto)]

ghost use Rattle.std.specs.Prelude.{◌≡◌};
ghost use Rattle.geo_ray.specs.Ray as Ray;

use point::{Axis, Point};

// What a ray meets: nothing; an edge or a corner that it only touches; or the triangle's inside, at t.
#[derive(Clone, Copy)]
pub enum RayHit {
    Miss,
    Grazed,
    Hit(f32),
}

// A number for each corner.
#[derive(Clone, Copy)]
pub struct Three {
    pub v0: f32,
    pub v1: f32,
    pub v2: f32,
}

// A triangle made ready for rays along an axis: its corners and edges, turned so that the rays run along x.
#[derive(Clone, Copy)]
pub struct Cast {
    pub v0: Point,
    pub v1: Point,
    pub v2: Point,
    pub e01: Point,
    pub e12: Point,
    pub e20: Point,
}

#[tactic(auto, unfolding(crate::specs::Ray::cast_of))]
pub fn cast_of(axis: Axis, v0: Point, v1: Point, v2: Point) -> Cast
    ensures { result ≡ Ray.cast_of axis v0 v1 v2 }
{
    let a = v0.turned(axis);
    let b = v1.turned(axis);
    let c = v2.turned(axis);
    let e01 = b.sub(a);
    let e12 = c.sub(b);
    let e20 = a.sub(c);
    Cast {
        v0: a,
        v1: b,
        v2: c,
        e01,
        e12,
        e20,
    }
}

// The part of each weight that depends on the origin's z.
#[tactic(auto, unfolding(crate::specs::Ray::across_z))]
pub fn across_z(f: Cast, z: f32) -> Three
    ensures { result ≡ Ray.across_z f z }
{
    Three {
        v0: (z - f.v1.z) * f.e12.y,
        v1: (z - f.v2.z) * f.e20.y,
        v2: (z - f.v0.z) * f.e01.y,
    }
}

// The part of each weight that depends on the origin's y.
#[tactic(auto, unfolding(crate::specs::Ray::across_y))]
pub fn across_y(f: Cast, y: f32) -> Three
    ensures { result ≡ Ray.across_y f y }
{
    Three {
        v0: (y - f.v1.y) * f.e12.z,
        v1: (y - f.v2.y) * f.e20.z,
        v2: (y - f.v0.y) * f.e01.z,
    }
}

// Where the origin lies along the ray, seen from each corner.
#[tactic(auto, unfolding(crate::specs::Ray::along_x))]
pub fn along_x(f: Cast, x: f32) -> Three
    ensures { result ≡ Ray.along_x f x }
{
    Three {
        v0: x - f.v0.x,
        v1: x - f.v1.x,
        v2: x - f.v2.x,
    }
}

// "At least one weight is 0, and not one above 0 with another below 0."
fn grazes(w0: f32, w1: f32, w2: f32) -> bool
    ensures { result ≡ Ray.grazes w0 w1 w2 }
{
    let zero = (w0 == 0.0) | (w1 == 0.0) | (w2 == 0.0);
    let above = (w0 > 0.0) | (w1 > 0.0) | (w2 > 0.0);
    let below = (w0 < 0.0) | (w1 < 0.0) | (w2 < 0.0);
    zero & !(above & below)
}

// The test itself, from the three parts.
#[tactic(auto, unfolding(crate::specs::Ray::ray_of))]
pub fn ray_of(zs: Three, ys: Three, xs: Three) -> RayHit
    ensures { result ≡ Ray.ray_of zs ys xs }
{
    let x0 = xs.v0;
    let x1 = xs.v1;
    let x2 = xs.v2;
    let w0 = zs.v0 - ys.v0;
    let w1 = zs.v1 - ys.v1;
    let w2 = zs.v2 - ys.v2;
    let below = (w0 < 0.0) & (w1 < 0.0) & (w2 < 0.0);
    let above = (w0 > 0.0) & (w1 > 0.0) & (w2 > 0.0);
    if below | above {
        let t = -(w0 * x0 + w2 * x2 + w1 * x1) / (w0 + w1 + w2);
        if t > 0.0 {
            return RayHit::Hit(t);
        }
        return RayHit::Miss;
    }
    if grazes(w0, w1, w2) {
        return RayHit::Grazed;
    }
    RayHit::Miss
}

pub fn ray_triangle_intersection_aligned(
    o: Point,
    v0: Point,
    v1: Point,
    v2: Point,
    axis: Axis,
) -> RayHit
    ensures { result ≡ Ray.ray_aligned o v0 v1 v2 axis }
{
    let q = o.turned(axis);
    let f = cast_of(axis, v0, v1, v2);
    ray_of(across_z(f, q.z), across_y(f, q.y), along_x(f, q.x))
}
