// A mesh tidied, for C: `sdf::tidy_mesh`, with the answer as a record. A slice is two parameters in C, a pointer and a
// count.
ghost use Rattle.mesh.specs.Mesh.{mesh_of};
ghost use Rattle.tidy_mesh.specs.Outcome.{tidy_lent_of, tidy_outcome};
ghost use Rattle.c_job.specs.Job.{topology_in, indices_in};
ghost use Rattle.c_tidy.specs.Tidy.{GivesTidyC};

use c_job::{indices_in, topology_in};
use c_tidy::{SdfTidyAnswer, tidy_out};
use sdf::Mesh;

// `topology` is 0 for a list and any other number for a strip, which is refused by 13; `given` is 0 where there are no
// indices.
pub fn sdf_tidy_mesh(
    vertices: &[f32],
    topology: u32,
    given: u32,
    indices: &[u32],
    coordinates: &mut [f32],
    listed: &mut [u32],
    firsts: &mut [u32],
    causes: &mut [u32],
) -> SdfTidyAnswer
    ensures { let m = mesh_of vertices.now (topology_in topology) (indices_in given) indices.now in
        let lent = tidy_lent_of coordinates.old listed.old firsts.old causes.old in
        let left = tidy_lent_of coordinates.new listed.new firsts.new causes.new in
        GivesTidyC (tidy_outcome m lent) result left }
{
    let mesh = Mesh {
        vertices,
        topology: topology_in(topology),
        given: indices_in(given),
        indices,
    };
    tidy_out(sdf::tidy_mesh(mesh, coordinates, listed, firsts, causes))
}
