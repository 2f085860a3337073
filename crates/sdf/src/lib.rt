// The public face of the port: this is what users call. No function of it has a `requires`: what is out of bounds is
// refused, by a `Refusal`, which has its number of document 01. The crates below it are its parts.
//
//   generate_grid_sdf          the whole job, over lent buffers (its contract stands in crate `job_generate`)
//   generate_grid_sdf_records  the same with the queue as a lent row of records (crate `entries_generate`)
//   Terms                      what both are asked for by value: the pop limit; the pass, plain or quick, which neither
//                              answer nor buffers show; the method of the signs; the edition of the layer table (crate `terms`)
//   stl_count, read_stl        a scanner's file, binary STL: its facets, and their corners (crate `stl_read`)
//   write_stl                  corners to such a file (crate `stl_write`)
//   tidy_mesh                  a mesh with its repeats merged and dropped, and what went (crate `tidy_mesh`)
//   index_build, index_update  which cells name each facet: an index beside the field, built and brought up to date; and
//   facet_cells                asked for the cells of one (crate `facet_calls`)
//   the methods of `Grid`      the grid's questions, asked by value (crate `grid`)
//   questions                  the same as functions; the geometry, the comparison and the root asked by themselves
//
// The same for C stands in crate `sdf_c`.
#![tactic(auto)]

mod questions;

// ---- what is asked about, and answered with

pub use ask_geo::{RayHit, TriangleBox};
pub use grid::{BoundingBox, Cell, Counts, Grid, Snap, SnapResult};
pub use point::{Axis, Point};
pub use refusals::Refusal;

// ---- the whole job

pub use entries_generate::generate_grid_sdf_records;
pub use job_generate::{Answer, Tally, generate_grid_sdf};
pub use mesh::Mesh;
pub use mesh_topology::{Indices, Topology};
pub use queue::Entry;
pub use terms::{Pass, SignMethod, Terms};

// ---- a scanner's file

pub use stl_read::{read_stl, stl_count};
pub use stl_write::write_stl;

// ---- a mesh tidied

pub use tidy_mesh::{Kept, tidy_mesh};

// ---- which cells a facet serves

pub use facet_calls::{facet_cells, index_build, index_update};

// ---- the questions

pub use questions::{
    closest_point_segment, closest_point_triangle, compare, from_bounding_box, get_bounding_box,
    get_cell_center, get_cell_count, get_cell_idx, get_cell_integer_coordinates, get_cell_size,
    get_first_cell, get_last_cell, get_total_cell_count, point_triangle_distance,
    point_triangle_signed_distance, ray_triangle_intersection_aligned, snap_point_to_grid, sqrt,
    sqrt_bits, triangle_bounding_box,
};
