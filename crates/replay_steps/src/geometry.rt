// Steps 0 to 7 and 19: the root, the comparison and the geometry. Each asks what the case that begins with word
// `base` asks, and says whether the port's answer is the stored one.
ghost use Rattle.std.specs.Prelude.{◌≡◌};
ghost use Rattle.replay_steps.specs.Geometry as Geometry;

use crate::words::{is_point, is_real, is_word, point, real, word};
use sdf_c::geometry as c_geometry;

pub fn sqrt(text: &[u8], base: usize) -> bool
    ensures { result ≡ Geometry.stored_root text.now base }
{
    let x = real(text, base, 1);
    is_real(text, base, 2, c_geometry::sdf_sqrt(x))
}

pub fn sqrt_bits(text: &[u8], base: usize) -> bool
    ensures { result ≡ Geometry.stored_root_bits text.now base }
{
    let b = word(text, base, 1);
    is_word(text, base, 2, c_geometry::sdf_sqrt_bits(b))
}

// The order is stored as -1, 0 or 1 in 32 bits.
fn order_word(order: i32) -> u32
    ensures { result ≡ Geometry.order_word order }
{
    if order == 0 {
        return 0;
    }
    if order == 1 {
        return 1;
    }
    0xffff_ffff
}

pub fn compare(text: &[u8], base: usize) -> bool
    ensures { result ≡ Geometry.stored_order text.now base }
{
    let a = real(text, base, 1);
    let b = real(text, base, 2);
    let r = c_geometry::sdf_compare_distances(a, b);
    let order = order_word(r.order);
    is_word(text, base, 3, r.number) & is_word(text, base, 4, order)
}

pub fn triangle_box(text: &[u8], base: usize) -> bool
    ensures { result ≡ Geometry.stored_triangle_box text.now base }
{
    let a = point(text, base, 1);
    let b = point(text, base, 4);
    let c = point(text, base, 7);
    let r = c_geometry::sdf_triangle_bounding_box(a, b, c);
    is_word(text, base, 10, r.number)
        & is_point(text, base, 11, r.min)
        & is_point(text, base, 14, r.max)
}

pub fn segment(text: &[u8], base: usize) -> bool
    ensures { result ≡ Geometry.stored_segment text.now base }
{
    let p = point(text, base, 1);
    let a = point(text, base, 4);
    let b = point(text, base, 7);
    let r = c_geometry::sdf_closest_point_segment(p, a, b);
    is_word(text, base, 10, r.number) & is_point(text, base, 11, r.point)
}

pub fn triangle(text: &[u8], base: usize) -> bool
    ensures { result ≡ Geometry.stored_triangle text.now base }
{
    let p = point(text, base, 1);
    let a = point(text, base, 4);
    let b = point(text, base, 7);
    let c = point(text, base, 10);
    let r = c_geometry::sdf_closest_point_triangle(p, a, b, c);
    is_word(text, base, 13, r.number) & is_point(text, base, 14, r.point)
}

pub fn distance(text: &[u8], base: usize) -> bool
    ensures { result ≡ Geometry.stored_distance text.now base }
{
    let p = point(text, base, 1);
    let a = point(text, base, 4);
    let b = point(text, base, 7);
    let c = point(text, base, 10);
    let r = c_geometry::sdf_point_triangle_distance(p, a, b, c);
    is_word(text, base, 13, r.number) & is_real(text, base, 14, r.distance)
}

pub fn signed_distance(text: &[u8], base: usize) -> bool
    ensures { result ≡ Geometry.stored_signed_distance text.now base }
{
    let p = point(text, base, 1);
    let a = point(text, base, 4);
    let b = point(text, base, 7);
    let c = point(text, base, 10);
    let r = c_geometry::sdf_point_triangle_signed_distance(p, a, b, c);
    is_word(text, base, 13, r.number) & is_real(text, base, 14, r.distance)
}

pub fn ray(text: &[u8], base: usize) -> bool
    ensures { result ≡ Geometry.stored_ray text.now base }
{
    let o = point(text, base, 1);
    let a = point(text, base, 4);
    let b = point(text, base, 7);
    let c = point(text, base, 10);
    let axis = word(text, base, 13);
    let r = c_geometry::sdf_ray_triangle_intersection_aligned(o, a, b, c, axis);
    is_word(text, base, 14, r.number)
        & is_word(text, base, 15, r.hit)
        & is_word(text, base, 16, r.grazed)
        & is_real(text, base, 17, r.t)
}
