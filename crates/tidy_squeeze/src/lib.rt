// What is kept of a mesh, put to the front of the lent outputs (document 02, §10: "squeezes out unused vertices", "tails zero"). The
// kept triangles are listed by the numbers that the marks of their vertices hold, and then the marked vertices are moved to
// the front of the same row: a vertex is put no further back than where its own mark stands, which has been read by
// then. A part of the port: users call `sdf`.
#![tactic(auto)]

ghost use Rattle.std.specs.Prelude.{◌≡◌, ◌+◌, ◌-◌, ◌*◌, ◌^◌, ◌<◌, ◌≤◌, length};
ghost use Rattle.lists.specs.Range.{count_below};
ghost use Rattle.lists.specs.Joined.{joined};
ghost use Rattle.lists.specs.Put.{Put};
ghost use Rattle.picks.specs.Picks.{select};
ghost use Rattle.mesh_topology.specs.Topology.{triangles_of};
ghost use Rattle.mesh_explicit.specs.Explicit.{vertex_numbers};
ghost use Rattle.tidy.specs.Padded.{padded, plus_zero};
ghost use Rattle.tidy.specs.Tidy.{coordinates_at};
ghost use Rattle.tidy_marks.specs.Marks.{Squeezable, NumbersBelow, kept_by, is_marked};
ghost use Rattle.tidy_squeeze.specs.InFront.{by_marks, piece_if, new_numbers};

use mesh_explicit::put_triangle;
use mesh_topology::{Indices, Topology, Triangle};
use tidy_causes::merge;
use tidy_words::number_at;

fn less_one(x: u32) -> u32
    ensures { result ≡ x - 1 }
{
    if x == 0 { 0 } else { x - 1 }
}

// ---- triangles

// A triangle by the numbers that the marks of its vertices hold, which begin with 1.
fn renumber(words: &[f32], n: usize, t: Triangle) -> Triangle
    requires words_len { (length words.now ≡ 3 * n) × (n < 2 ^ 22) }
    requires numbers_below { NumbersBelow n t }
    ensures { result ≡ by_marks n words.now t }
{
    Triangle {
        a: less_one(number_at(words, 2 * n + t.a as usize)),
        b: less_one(number_at(words, 2 * n + t.b as usize)),
        c: less_one(number_at(words, 2 * n + t.c as usize)),
    }
}

// Puts the new numbers of triangle k at `at`, where it is kept.
fn list_if_kept(
    topology: Topology,
    given: Indices,
    indices: &[u32],
    firsts: &[u32],
    causes: &[u32],
    words: &[f32],
    out: &mut [u32],
    at: usize,
    k: usize,
) -> usize
    requires fact { let ts = triangles_of topology given indices.now (length firsts.now) in
        Squeezable ts firsts.now causes.now (length words.now) }
    requires k_in_bounds { (k < length causes.now) × (at + 3 ≤ length out.old) }
    ensures { let fs = firsts.now in
        let ts = triangles_of topology given indices.now (length fs) in
        let numbers = new_numbers ts fs words.now in
        Put out.old at (piece_if (kept_by causes.now) numbers k) out.new result }
{
    if causes[k] != 0 {
        return at;
    }
    let t = merge(topology, given, indices, firsts, k);
    put_triangle(out, at, renumber(words, firsts.len(), t))
}

// Lists the kept triangles by their new numbers, zeros behind them, and tells how many there are.
pub fn list_kept(
    topology: Topology,
    given: Indices,
    indices: &[u32],
    firsts: &[u32],
    causes: &[u32],
    words: &[f32],
    out: &mut [u32],
) -> usize
    requires fact { let ts = triangles_of topology given indices.now (length firsts.now) in
        Squeezable ts firsts.now causes.now (length words.now) }
    requires out_len { length out.old ≡ 3 * length causes.now }
    ensures value { result ≡ count_below (kept_by causes.now) (length causes.now) }
    ensures out_after { let fs = firsts.now in
        let ts = triangles_of topology given indices.now (length fs) in
        let numbers = new_numbers ts fs words.now in
        let kept = kept_by causes.now in
        let n = length causes.now in
        let listed = joined (λ i. numbers (select kept n i)) (count_below kept n) in
        out.new ≡ padded 0 (length out.old) listed }
{
    let mut at = 0;
    for k in 0..causes.len() {
        at = list_if_kept(topology, given, indices, firsts, causes, words, out, at, k);
    }
    out[at..].fill(0);
    at / 3
}

// ---- vertices

// Puts the coordinates of vertex v at `at`.
fn put_vertex(vertices: &[f32], words: &mut [f32], at: usize, v: usize) -> usize
    requires { (3 * v + 2 < length vertices.now) × (at + 3 ≤ length words.old) }
    ensures { Put words.old at (coordinates_at vertices.now v) words.new result }
{
    words[at] = vertices[3 * v];
    words[at + 1] = vertices[3 * v + 1];
    words[at + 2] = vertices[3 * v + 2];
    at + 3
}

// The same, where vertex v is marked.
fn put_if_marked(vertices: &[f32], words: &mut [f32], n: usize, at: usize, v: usize) -> usize
    requires vertices_len { (length vertices.now ≡ 3 * n) × (length words.old ≡ 3 * n) × (n < 2 ^ 22) }
    requires v_lt_n { (v < n) × (at ≤ 3 * v) }
    ensures { let old = words.old in
        Put old at (piece_if (is_marked n old) (coordinates_at vertices.now) v) words.new result }
{
    let mark = number_at(words, 2 * n + v);
    if mark == 0 {
        return at;
    }
    put_vertex(vertices, words, at, v)
}

// Moves the marked vertices to the front, zeros behind them. No mark is left.
pub fn pack(vertices: &[f32], words: &mut [f32], n: usize)
    requires { (length vertices.now ≡ 3 * n) × (length words.old ≡ 3 * n) × (n < 2 ^ 22) }
    ensures { let old = words.old in
        let marked = is_marked n old in
        let packed = joined (λ i. coordinates_at vertices.now (select marked n i)) (count_below marked n) in
        words.new ≡ padded plus_zero (length old) packed }
{
    let mut at = 0;
    for v in 0..n {
        at = put_if_marked(vertices, words, n, at, v);
    }
    words[at..].fill(0.0);
}
