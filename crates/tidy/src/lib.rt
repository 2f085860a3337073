// A mesh tidied, and what went (document 02, §10). specs/ has what a tidied mesh is, proofs/ the laws that the request asks
// for. The code here is what the search for repeats compares: three numbers at a time. A part of the port: users call `sdf`.
#![tactic(auto)]

// The bit patterns of a vertex, or the vertex numbers of a triangle in ascending order.
#[derive(Clone, Copy, PartialEq, Eq)]
pub struct ThreeWords {
    pub a: u32,
    pub b: u32,
    pub c: u32,
}
