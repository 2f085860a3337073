// The archive for C: the functions `sdf_..` that sdf.h declares (crates/sdf_c, beside src/). A crate is built as a library
// or as an archive for C, not as both; `sdf_c` is the library, since Rattle calls it too, and a library hands no symbol to
// C. So each function here has the name, the parameters and the promise of the one in `sdf_c`, and calls it. An archive for
// C has the functions of its own crate alone, so they stand in one crate.
//
//   geometry  the root, the comparison and the geometry
//   grids     the grid's questions
//   job       the whole job
//   files     a scanner's file, read and written
//   meshes    a mesh tidied
//   facets    which cells name a facet
#![tactic(auto)]

pub mod facets;
pub mod files;
pub mod geometry;
pub mod grids;
pub mod job;
pub mod meshes;
