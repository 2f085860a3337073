// Which vertices of a mesh are kept, and the numbers that they get (document 02, §10: "squeezes out unused vertices"): those that a
// kept triangle has are marked, and the marked ones numbered from 1 on. Marks and numbers stand in the last third of a
// row of floats that is lent, the coordinates' output. A part of the port: users call `sdf`.
#![tactic(auto)]

ghost use Rattle.std.specs.Prelude.{◌≡◌, cond, ◌&&◌, ◌+◌, ◌*◌, ◌^◌, ◌<◌, ◌≤◌, length};
ghost use Rattle.lists.specs.Range.{count_below};
ghost use Rattle.mesh_topology.specs.Topology.{triangles_of};
ghost use Rattle.tidy.specs.Numbers.{has_number};
ghost use Rattle.tidy_causes.specs.Causes.{merged_by};
ghost use Rattle.tidy_marks.specs.Marks.{NumbersBelow, Marks, mark_at, kept_by, used_by, is_marked, numbered, Squeezable};

use mesh_topology::{Indices, Topology, Triangle};
use tidy_causes::merge;
use tidy_words::{number_at, put_number};

// Marks the three vertices of a triangle.
fn mark_triangle(words: &mut [f32], n: usize, t: Triangle)
    requires words_len { (length words.old ≡ 3 * n) × (n < 2 ^ 22) }
    requires numbers_below { NumbersBelow n t }
    ensures { Marks n (λ v. cond (has_number t v) 1 (mark_at n words.old v)) words.new }
{
    put_number(words, 2 * n + t.a as usize, 1);
    put_number(words, 2 * n + t.b as usize, 1);
    put_number(words, 2 * n + t.c as usize, 1);
}

// The same for triangle k where it is kept.
fn mark_if_kept(
    topology: Topology,
    given: Indices,
    indices: &[u32],
    firsts: &[u32],
    causes: &[u32],
    words: &mut [f32],
    k: usize,
)
    requires fact { let ts = triangles_of topology given indices.now (length firsts.now) in
        Squeezable ts firsts.now causes.now (length words.old) }
    requires k_in_bounds { k < length causes.now }
    ensures { let fs = firsts.now in
        let t = merged_by (triangles_of topology given indices.now (length fs)) fs k in
        let marks = kept_by causes.now k in
        Marks (length fs) (λ v. cond (marks && has_number t v) 1 (mark_at (length fs) words.old v)) words.new }
{
    if causes[k] != 0 {
        return;
    }
    let t = merge(topology, given, indices, firsts, k);
    mark_triangle(words, firsts.len(), t);
}

// Marks the vertices that kept triangles have, and no other.
pub fn mark_used(
    topology: Topology,
    given: Indices,
    indices: &[u32],
    firsts: &[u32],
    causes: &[u32],
    words: &mut [f32],
)
    requires { let ts = triangles_of topology given indices.now (length firsts.now) in
        Squeezable ts firsts.now causes.now (length words.old) }
    ensures { let fs = firsts.now in
        let ts = triangles_of topology given indices.now (length fs) in
        Marks (length fs) (λ v. cond (used_by ts fs causes.now v) 1 0) words.new }
{
    words.fill(0.0);
    for k in 0..causes.len() {
        mark_if_kept(topology, given, indices, firsts, causes, words, k);
    }
}

// Numbers vertex v where it is marked, and tells how many are numbered then.
fn number_if_marked(words: &mut [f32], n: usize, v: usize, count: u32) -> u32
    requires words_len { (length words.old ≡ 3 * n) × (n < 2 ^ 22) }
    requires v_lt_n { (v < n) × (count ≤ v) }
    ensures value { result ≡ count + cond (is_marked n words.old v) 1 0 }
    ensures marks { Marks n (numbered n words.old v count) words.new }
{
    let mark = number_at(words, 2 * n + v);
    if mark == 0 {
        return count;
    }
    put_number(words, 2 * n + v, count + 1);
    count + 1
}

// Numbers the marked vertices from 1 on, and tells how many there are.
pub fn number_marked(words: &mut [f32], n: usize) -> u32
    requires { (length words.old ≡ 3 * n) × (n < 2 ^ 22) }
    ensures value { result ≡ count_below (is_marked n words.old) n }
    ensures fact { let marked = is_marked n words.old in
        Marks n (λ v. cond (marked v) (count_below marked v + 1) 0) words.new }
{
    let mut count: u32 = 0;
    for v in 0..n {
        count = number_if_marked(words, n, v, count);
    }
    count
}
