// The root, the comparison and the geometry, for C: the calls of `sdf_c::geometry`.
ghost use Rattle.std.specs.Prelude.{◌≡◌};
ghost use Rattle.float.specs.RootOf.{IsRoot, root_bits};
ghost use Rattle.point.specs.Point.{axis_numbered};
ghost use Rattle.ask_geo.specs.Asked.{asked_box, asked_segment, asked_triangle, asked_distance, asked_signed_distance, asked_ray};
ghost use Rattle.c_records.specs.C as C;
ghost use Rattle.c_records.specs.C.{point_in};

use c_records::{
    SdfBoxAnswer, SdfDistanceAnswer, SdfOrderAnswer, SdfPoint, SdfPointAnswer, SdfRayAnswer,
};

#[unsafe(no_mangle)]
pub extern "C" fn sdf_sqrt(x: f32) -> f32
    ensures { IsRoot x result }
{
    sdf_c::geometry::sdf_sqrt(x)
}

#[unsafe(no_mangle)]
pub extern "C" fn sdf_sqrt_bits(b: u32) -> u32
    ensures { result ≡ root_bits b }
{
    sdf_c::geometry::sdf_sqrt_bits(b)
}

#[unsafe(no_mangle)]
pub extern "C" fn sdf_compare_distances(a: f32, b: f32) -> SdfOrderAnswer
    ensures { result ≡ C.compared_for_c a b }
{
    sdf_c::geometry::sdf_compare_distances(a, b)
}

#[unsafe(no_mangle)]
pub extern "C" fn sdf_triangle_bounding_box(a: SdfPoint, b: SdfPoint, c: SdfPoint) -> SdfBoxAnswer
    ensures { result ≡ C.triangle_box_for_c (asked_box (point_in a) (point_in b) (point_in c)) }
{
    sdf_c::geometry::sdf_triangle_bounding_box(a, b, c)
}

#[unsafe(no_mangle)]
pub extern "C" fn sdf_closest_point_segment(p: SdfPoint, a: SdfPoint, b: SdfPoint) -> SdfPointAnswer
    ensures { result ≡ C.closest_for_c (asked_segment (point_in p) (point_in a) (point_in b)) }
{
    sdf_c::geometry::sdf_closest_point_segment(p, a, b)
}

#[unsafe(no_mangle)]
pub extern "C" fn sdf_closest_point_triangle(
    p: SdfPoint,
    a: SdfPoint,
    b: SdfPoint,
    c: SdfPoint,
) -> SdfPointAnswer
    ensures { result ≡ C.closest_for_c (asked_triangle (point_in p) (point_in a) (point_in b) (point_in c)) }
{
    sdf_c::geometry::sdf_closest_point_triangle(p, a, b, c)
}

#[unsafe(no_mangle)]
pub extern "C" fn sdf_point_triangle_distance(
    p: SdfPoint,
    a: SdfPoint,
    b: SdfPoint,
    c: SdfPoint,
) -> SdfDistanceAnswer
    ensures { result ≡ C.distance_for_c (asked_distance (point_in p) (point_in a) (point_in b) (point_in c)) }
{
    sdf_c::geometry::sdf_point_triangle_distance(p, a, b, c)
}

#[unsafe(no_mangle)]
pub extern "C" fn sdf_point_triangle_signed_distance(
    p: SdfPoint,
    a: SdfPoint,
    b: SdfPoint,
    c: SdfPoint,
) -> SdfDistanceAnswer
    ensures { result ≡ C.distance_for_c (asked_signed_distance (point_in p) (point_in a) (point_in b) (point_in c)) }
{
    sdf_c::geometry::sdf_point_triangle_signed_distance(p, a, b, c)
}

#[unsafe(no_mangle)]
pub extern "C" fn sdf_ray_triangle_intersection_aligned(
    o: SdfPoint,
    v0: SdfPoint,
    v1: SdfPoint,
    v2: SdfPoint,
    axis: u32,
) -> SdfRayAnswer
    ensures { result ≡ C.ray_for_c (asked_ray (point_in o) (point_in v0) (point_in v1) (point_in v2) (axis_numbered axis)) }
{
    sdf_c::geometry::sdf_ray_triangle_intersection_aligned(o, v0, v1, v2, axis)
}
