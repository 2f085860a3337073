// Geometry of triangles, after `geo.rs`: the closest point (`geo_closest`, and with no branch `geo_closest_branchless`), the distance
// (`geo_distance`), the side and the signed distance (`geo_side`), the box (`geo_box`), and the ray along an axis (`geo_ray`). Here are
// its questions asked by themselves. Each function equals a definition of specs/. A part of the public face `sdf`.
#![tactic(auto)]

pub mod asked;

pub use geo_box::TriangleBox;
pub use geo_ray::RayHit;
