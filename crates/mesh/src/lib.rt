// The mesh as it is lent: a row of coordinates, three to a vertex, how its corners make triangles, and the corners of a
// triangle read off it. A part of the public face `sdf`.
#![tactic(auto)]

ghost use Rattle.std.specs.Prelude.{◌≡◌, true, ◌+◌, ◌*◌, ◌/◌, ◌^◌, ◌<◌, ◌≤◌, length};
ghost use Rattle.mesh_topology.specs.Topology.{triangles_of, kth};
ghost use Rattle.mesh_topology.specs.Refusals.{all_below_count};
ghost use Rattle.mesh.specs.Lent.{mesh_in};
ghost use Rattle.mesh.specs.Mesh.{Sound, vertex_count, triangles_in, vertex_at, corners_of, corners_at};

use mesh_topology::{Indices, Topology, Triangle};
use point::Point;

// A mesh, lent: three coordinates for each vertex, and the vertex numbers of the corners in turn; without indices the
// numbers 0, 1, 2 .. stand in, and the slice is not read.
#[derive(Clone, Copy)]
pub struct Mesh<'a> {
    pub vertices: &'a [f32],
    pub topology: Topology,
    pub given: Indices,
    pub indices: &'a [u32],
}

// The corners of a triangle.
#[derive(Clone, Copy)]
pub struct Corners {
    pub a: Point,
    pub b: Point,
    pub c: Point,
}

// Vertex i.
pub fn vertex(vertices: &[f32], i: u32) -> Point
    requires { i < vertex_count vertices.now }
    ensures { result ≡ vertex_at vertices.now i }
{
    let at = 3 * (i as usize);
    let x = vertices[at];
    let y = vertices[at + 1];
    let z = vertices[at + 2];
    Point { x: x, y: y, z: z }
}

// The corners that a triangle's vertex numbers name.
fn corners_of(vertices: &[f32], t: Triangle) -> Corners
    requires { (t.a < vertex_count vertices.now) × (t.b < vertex_count vertices.now) × (t.c < vertex_count vertices.now) }
    ensures { result ≡ corners_of vertices.now t }
{
    let a = vertex(vertices, t.a);
    let b = vertex(vertices, t.b);
    let c = vertex(vertices, t.c);
    Corners { a: a, b: b, c: c }
}

// How many triangles the mesh has.
pub fn triangle_count(mesh: Mesh) -> usize
    ensures { result ≡ length (triangles_in (mesh_in mesh.entry)) }
{
    mesh_topology::triangle_count(
        mesh.topology,
        mesh.given,
        mesh.indices,
        mesh.vertices.len() / 3,
    )
}

// The corners of triangle k.
pub fn corners_at(mesh: Mesh, k: usize) -> Corners
    requires sound { Sound (mesh_in mesh) }
    requires k_in_bounds { k < length (triangles_in (mesh_in mesh)) }
    ensures { result ≡ corners_at (mesh_in mesh.entry) k }
{
    let t = mesh_topology::triangle_at(
        mesh.topology,
        mesh.given,
        mesh.indices,
        mesh.vertices.len() / 3,
        k,
    );
    corners_of(mesh.vertices, t)
}
