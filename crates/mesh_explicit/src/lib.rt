// The triangles of a mesh listed by explicit indices (document 02, §7): the vertex numbers of each in turn, so that a
// strip becomes a list that names the same triangles in the same order. A part of the port: users run the
// converter.
#![tactic(auto)]

ghost use Rattle.std.specs.Prelude.{◌+◌, ◌*◌, ◌^◌, ◌<◌, ◌≤◌, length};
ghost use Rattle.lists.specs.Put.{Put};
ghost use Rattle.mesh_topology.specs.Topology.{triangles_of};
ghost use Rattle.mesh_explicit.specs.Explicit.{vertex_numbers, explicit};

use mesh_topology::{Indices, Topology, Triangle};

// A triangle's three vertex numbers, from `at` on.
pub fn put_triangle(out: &mut [u32], at: usize, t: Triangle) -> usize
    requires { at + 3 ≤ length out.old }
    ensures { Put out.old at (vertex_numbers t) out.new result }
{
    out[at] = t.a;
    out[at + 1] = t.b;
    out[at + 2] = t.c;
    at + 3
}

// Puts the vertex numbers of each triangle in turn at the front of `out`, and tells how many numbers these are. What
// stands behind them stays.
pub fn list_triangles(
    topology: Topology,
    given: Indices,
    indices: &[u32],
    vertices: usize,
    out: &mut [u32],
) -> usize
    requires vertices_bound { vertices < 2 ^ 32 }
    requires vertices_in_bounds { 3 * length (triangles_of topology given indices.now vertices) ≤ length out.old }
    ensures { let ts = triangles_of topology given indices.now vertices in
        Put out.old 0 (explicit ts) out.new result }
{
    let n = mesh_topology::triangle_count(topology, given, indices, vertices);
    let mut next = 0;
    for k in 0..n {
        let t = mesh_topology::triangle_at(topology, given, indices, vertices, k);
        next = put_triangle(out, next, t);
    }
    next
}
