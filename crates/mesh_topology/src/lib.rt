// How corners make triangles: as a list or as a strip, with indices or without (document 01, "Topology").
// The source's `Topology` holds its indices. Here it is an enum without references, and the indices stand
// beside it. Whether a job may have its triangles is asked by `mesh_checks`. A part of the port: users call
// `sdf`.
#![tactic(auto)]

ghost use Rattle.std.specs.Prelude.{◌≡◌, ◌-◌, ◌^◌, ◌<◌, length, get_or};
ghost use Rattle.mesh_topology.specs.Topology.{corners, triangles_of, kth, triangle_count, first_corner};

// The whole job takes lists alone: strips are withdrawn, and it refuses them by 13 (document 02, §7). What a strip names
// is said and worked out here all the same, since the converter lists it.
#[derive(Clone, Copy)]
pub enum Topology {
    TriangleList,
    TriangleStrip,
}

// Whether indices are given. Without them the vertex numbers 0, 1, 2 .. stand in, and the slice is not read.
#[derive(Clone, Copy)]
pub enum Indices {
    Given,
    None,
}

// The vertex numbers of a triangle, in the order in which its corners come.
#[derive(Clone, Copy)]
pub struct Triangle {
    pub a: u32,
    pub b: u32,
    pub c: u32,
}

// How many corners there are: the indices, or without them the vertices.
pub fn corner_count(given: Indices, indices: &[u32], vertices: usize) -> usize
    ensures { result ≡ length (corners given indices.now vertices) }
{
    match given {
        Indices::Given => indices.len(),
        Indices::None => vertices,
    }
}

// The vertex number of corner `i`.
pub fn corner(given: Indices, indices: &[u32], vertices: usize, i: usize) -> u32
    requires { (vertices < 2 ^ 32) × (i < length (corners given indices.now vertices)) }
    ensures { result ≡ get_or (corners given indices.now vertices) i 0 }
{
    match given {
        Indices::Given => indices[i],
        Indices::None => i as u32,
    }
}

// How many triangles so many corners make.
fn count_of(topology: Topology, corners: usize) -> usize
    ensures { result ≡ triangle_count topology corners }
{
    match topology {
        Topology::TriangleList => corners / 3,
        Topology::TriangleStrip => less_two(corners),
    }
}

fn less_two(n: usize) -> usize
    ensures { result ≡ n - 2 }
{
    if n < 2 { 0 } else { n - 2 }
}

// How many triangles there are.
pub fn triangle_count(topology: Topology, given: Indices, indices: &[u32], vertices: usize) -> usize
    ensures { result ≡ length (triangles_of topology given indices.now vertices) }
{
    count_of(topology, corner_count(given, indices, vertices))
}

// The number of the corner with which triangle `k` begins.
fn first_corner(topology: Topology, k: usize) -> usize
    requires { first_corner topology k < 2 ^ 64 }
    ensures { result ≡ first_corner topology k }
{
    match topology {
        Topology::TriangleList => 3 * k,
        Topology::TriangleStrip => k,
    }
}

// Triangle `k`: the three vertex numbers.
pub fn triangle_at(
    topology: Topology,
    given: Indices,
    indices: &[u32],
    vertices: usize,
    k: usize,
) -> Triangle
    requires { (vertices < 2 ^ 32) × (k < length (triangles_of topology given indices.now vertices)) }
    ensures { result ≡ kth (triangles_of topology given indices.now vertices) k }
{
    let i = first_corner(topology, k);
    Triangle {
        a: corner(given, indices, vertices, i),
        b: corner(given, indices, vertices, i + 1),
        c: corner(given, indices, vertices, i + 2),
    }
}
