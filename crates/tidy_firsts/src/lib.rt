// The first vertex with the bits of each (document 02, §10: "merges vertices of identical bits (first kept)"). The vertices are
// entered one by one into a row of links, and each is looked for before it is entered. The row is lent: the
// coordinates' output, which has three words for each vertex. A part of the port: users call `sdf`.
#![tactic(auto)]

ghost use Rattle.std.specs.Prelude.{◌≡◌, ◌+◌, ◌*◌, ◌^◌, ◌<◌, length};
ghost use Rattle.float_bits.specs.Patterns.{bits_of};
ghost use Rattle.lists.specs.Table.{table};
ghost use Rattle.tidy.specs.Tidy.{vertex_bits};
ghost use Rattle.tidy_search.specs.Links.{Ends};
ghost use Rattle.tidy_firsts.specs.Firsts.{first_in, ReadyForVertex, VerticesEntered};

use float_bits::bits_of;
use tidy::ThreeWords;
use tidy_search::{head, link, turn};
use tidy_words::{number_at, put_number};

// The bits of vertex v.
fn bits_at(vertices: &[f32], v: usize) -> ThreeWords
    requires { 3 * v + 2 < length vertices.now }
    ensures { result ≡ vertex_bits vertices.now v }
{
    ThreeWords {
        a: bits_of(vertices[3 * v]),
        b: bits_of(vertices[3 * v + 1]),
        c: bits_of(vertices[3 * v + 2]),
    }
}

// The link at which a search for the bits of vertex v ends. The links that it passes lie ever further behind, so it ends.
// `tidy_causes` searches alike, in a row of numbers for those of a triangle. One search for both would want a trait for the row and one
// for what is looked for, each with two impls and laws, and so more than these lines; the steps that both take are `tidy_search`.
fn place(vertices: &[f32], links: &[f32], n: usize, v: usize) -> usize
    requires { ReadyForVertex vertices.now n v links.now }
    ensures { let key = vertex_bits vertices.now in
        Ends key n (bits_of links.now) (key v) result }
{
    let key = bits_at(vertices, v);
    let mut rest = key;
    let mut at = head(key, n);
    let mut held = number_at(links, at);
    while held != 0 {
        let w = held as usize - 1;
        let other = bits_at(vertices, w);
        if other == key {
            return at;
        }
        at = link(n, w, rest);
        rest = turn(rest);
        held = number_at(links, at);
    }
    at
}

// Looks for the bits of vertex v and enters it where they are new: the first vertex that has them.
fn enter(vertices: &[f32], links: &mut [f32], n: usize, v: usize) -> u32
    requires { ReadyForVertex vertices.now n v links.old }
    ensures value { result ≡ first_in vertices.now v }
    ensures vertices_entered { VerticesEntered vertices.now n (v + 1) links.new }
{
    let at = place(vertices, links, n, v);
    let held = number_at(links, at);
    if held != 0 {
        return held - 1;
    }
    put_number(links, at, v as u32 + 1);
    v as u32
}

// The first of each vertex. `links` is a row of three words for each, and holds anything afterwards.
pub fn find_firsts(vertices: &[f32], links: &mut [f32], firsts: &mut [u32])
    requires vertices_len { length vertices.now ≡ 3 * length firsts.old }
    requires links_len { length links.old ≡ length vertices.now }
    requires firsts_len_bound { length firsts.old < 2 ^ 22 }
    ensures { firsts.new ≡ table (first_in vertices.now) (length firsts.old) }
{
    links.fill(0.0);
    let n = firsts.len();
    for v in 0..n {
        firsts[v] = enter(vertices, links, n, v);
    }
}
