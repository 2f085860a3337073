// The root, the comparison and the geometry for C. Each is the question of `sdf`, with its answer as a record.
ghost use Rattle.std.specs.Prelude.{◌≡◌};
ghost use Rattle.float.specs.RootOf.{IsRoot, root_bits};
ghost use Rattle.point.specs.Point.{axis_numbered};
ghost use Rattle.ask_geo.specs.Asked.{asked_box, asked_segment, asked_triangle, asked_distance, asked_signed_distance, asked_ray};
ghost use Rattle.c_records.specs.C as C;
ghost use Rattle.c_records.specs.C.{point_in};

use c_records::{
    SdfBoxAnswer, SdfDistanceAnswer, SdfOrderAnswer, SdfPoint, SdfPointAnswer, SdfRayAnswer,
};

pub fn sdf_sqrt(x: f32) -> f32
    ensures { IsRoot x result }
{
    sdf::sqrt(x)
}

pub fn sdf_sqrt_bits(b: u32) -> u32
    ensures { result ≡ root_bits b }
{
    sdf::sqrt_bits(b)
}

pub fn sdf_compare_distances(a: f32, b: f32) -> SdfOrderAnswer
    ensures { result ≡ C.compared_for_c a b }
{
    c_geo::order_answer(sdf::compare(a, b))
}

pub fn sdf_triangle_bounding_box(a: SdfPoint, b: SdfPoint, c: SdfPoint) -> SdfBoxAnswer
    ensures { result ≡ C.triangle_box_for_c (asked_box (point_in a) (point_in b) (point_in c)) }
{
    c_geo::triangle_box_answer(sdf::triangle_bounding_box(a.into(), b.into(), c.into()))
}

pub fn sdf_closest_point_segment(p: SdfPoint, a: SdfPoint, b: SdfPoint) -> SdfPointAnswer
    ensures { result ≡ C.closest_for_c (asked_segment (point_in p) (point_in a) (point_in b)) }
{
    c_grid::point_answer(sdf::closest_point_segment(p.into(), a.into(), b.into()))
}

pub fn sdf_closest_point_triangle(
    p: SdfPoint,
    a: SdfPoint,
    b: SdfPoint,
    c: SdfPoint,
) -> SdfPointAnswer
    ensures { result ≡ C.closest_for_c (asked_triangle (point_in p) (point_in a) (point_in b) (point_in c)) }
{
    c_grid::point_answer(sdf::closest_point_triangle(p.into(), a.into(), b.into(), c.into()))
}

pub fn sdf_point_triangle_distance(
    p: SdfPoint,
    a: SdfPoint,
    b: SdfPoint,
    c: SdfPoint,
) -> SdfDistanceAnswer
    ensures { result ≡ C.distance_for_c (asked_distance (point_in p) (point_in a) (point_in b) (point_in c)) }
{
    c_geo::distance_answer(sdf::point_triangle_distance(p.into(), a.into(), b.into(), c.into()))
}

pub fn sdf_point_triangle_signed_distance(
    p: SdfPoint,
    a: SdfPoint,
    b: SdfPoint,
    c: SdfPoint,
) -> SdfDistanceAnswer
    ensures { result ≡ C.distance_for_c (asked_signed_distance (point_in p) (point_in a) (point_in b) (point_in c)) }
{
    c_geo::distance_answer(sdf::point_triangle_signed_distance(
        p.into(),
        a.into(),
        b.into(),
        c.into(),
    ))
}

// `axis` is 0 for x, 1 for y, and any other number for z.
pub fn sdf_ray_triangle_intersection_aligned(
    o: SdfPoint,
    v0: SdfPoint,
    v1: SdfPoint,
    v2: SdfPoint,
    axis: u32,
) -> SdfRayAnswer
    ensures { result ≡ C.ray_for_c (asked_ray (point_in o) (point_in v0) (point_in v1) (point_in v2) (axis_numbered axis)) }
{
    c_geo::ray_answer(sdf::ray_triangle_intersection_aligned(
        o.into(),
        v0.into(),
        v1.into(),
        v2.into(),
        point::axis_numbered(axis),
    ))
}
