// Whether a job may have its triangles: refusals 3 and 4 (document 01, "Reply numbers"), and 13 (document 02, §7). A
// part of the port: users call `sdf`.
#![tactic(auto)]

ghost use Rattle.std.specs.Prelude.{◌≡◌, ◌^◌, ◌<◌};
ghost use Rattle.mesh_topology.specs.Topology.{triangles_of};
ghost use Rattle.mesh_topology.specs.Refusals.{is_strip, too_many_triangles, below_count, all_below_count};

use mesh_topology::{Indices, Topology, Triangle};

// Whether the corners make a strip, which is withdrawn: refusal 13.
pub fn is_strip(topology: Topology) -> bool
    ensures { result ≡ is_strip topology }
{
    match topology {
        Topology::TriangleList => false,
        Topology::TriangleStrip => true,
    }
}

// Whether there are more triangles than a job may have: refusal 3.
pub fn too_many_triangles(
    topology: Topology,
    given: Indices,
    indices: &[u32],
    vertices: usize,
) -> bool
    ensures { result ≡ too_many_triangles (triangles_of topology given indices.now vertices) }
{
    131_072 < mesh_topology::triangle_count(topology, given, indices, vertices)
}

// Whether each corner is a vertex.
fn below_count(t: Triangle, vertices: usize) -> bool
    ensures { result ≡ below_count vertices t }
{
    let a = t.a as usize;
    let b = t.b as usize;
    let c = t.c as usize;
    (a < vertices) & (b < vertices) & (c < vertices)
}

// Whether every index that a triangle uses is below the vertex count. Where it is not, refusal 4.
pub fn in_range(topology: Topology, given: Indices, indices: &[u32], vertices: usize) -> bool
    requires { vertices < 2 ^ 32 }
    ensures { result ≡ all_below_count vertices (triangles_of topology given indices.now vertices) }
{
    let n = mesh_topology::triangle_count(topology, given, indices, vertices);
    for k in 0..n {
        let t = mesh_topology::triangle_at(topology, given, indices, vertices, k);
        let ok = below_count(t, vertices);
        if !ok {
            return false;
        }
    }
    true
}
