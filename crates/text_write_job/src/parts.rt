// The parts of the text, in its order: the lines before the vertices, the vertices, the indices, the tail.
ghost use Rattle.std.specs.Prelude.{◌+◌, ◌*◌, ◌≤◌, length, take, Some};
ghost use Rattle.text.specs.Words.{line, lines};
ghost use Rattle.text.specs.Limits.{most_vertices, index_room};
ghost use Rattle.text.specs.TextJob.{upright_text, topology_text, sign_text, head_text, table_text, tail_text};
ghost use Rattle.text.specs.TextJob.{vertex_line, vertices_text, index_line, indices_text};
ghost use Rattle.text_read_parts.specs.Told.{threes_in, listed_as};
ghost use Rattle.lists.specs.Put.{Put};

use mesh_topology::{Indices, Topology};
use point::Axis;
use terms::SignMethod;
use text::{Form, Head, Tail, Three};
use text_write::{put_all, put_number, put_three};

// The line of the upright axis, where it was said.
fn put_upright(out: &mut [u8], at: usize, upright: Option<Axis>) -> usize
    requires { at + 10 ≤ length out.old }
    ensures put { Put out.old at (upright_text upright) out.new result }
    ensures upper_bound { result ≤ at + 10 }
{
    match upright {
        Some(axis) => put_axis(out, at, axis),
        None => at,
    }
}

fn put_axis(out: &mut [u8], at: usize, axis: Axis) -> usize
    requires { at + 10 ≤ length out.old }
    ensures put { Put out.old at (upright_text (Some axis)) out.new result }
    ensures upper_bound { result ≤ at + 10 }
{
    match axis {
        Axis::X => put_all(out, at, b"upright=x\n"),
        Axis::Y => put_all(out, at, b"upright=y\n"),
        Axis::Z => put_all(out, at, b"upright=z\n"),
    }
}

fn put_topology(out: &mut [u8], at: usize, topology: Topology) -> usize
    requires { at + 15 ≤ length out.old }
    ensures put { Put out.old at (line "topology=" (topology_text topology)) out.new result }
    ensures upper_bound { result ≤ at + 15 }
{
    match topology {
        Topology::TriangleList => put_all(out, at, b"topology=list\n"),
        Topology::TriangleStrip => put_all(out, at, b"topology=strip\n"),
    }
}

// The line that asks for Normal. Of Raycast there is none.
fn put_sign(out: &mut [u8], at: usize, sign: SignMethod) -> usize
    requires { at + 12 ≤ length out.old }
    ensures put { Put out.old at (sign_text sign) out.new result }
    ensures upper_bound { result ≤ at + 12 }
{
    match sign {
        SignMethod::Raycast => at,
        SignMethod::Normal => put_all(out, at, b"sign=normal\n"),
    }
}

// The lines before the vertices, at the first byte.
pub fn put_head(out: &mut [u8], head: Head) -> usize
    requires { 141 ≤ length out.old }
    ensures put { Put out.old 0 (head_text head) out.new result }
    ensures upper_bound { result ≤ 141 }
{
    let count = head.count;
    let first = head.first;
    let size = head.size;
    let upright = head.upright;
    let topology = head.topology;
    let sign = head.sign;
    let a = put_three(out, 0, b"count=", count, Form::Decimal);
    let b = put_three(out, a, b"first=", first, Form::Hex8);
    let c = put_three(out, b, b"size=", size, Form::Hex8);
    let d = put_upright(out, c, upright);
    let e = put_topology(out, d, topology);
    put_sign(out, e, sign)
}

// A line for each of the first n vertices.
fn put_vertex_lines(out: &mut [u8], at: usize, vertices: &[u32], n: usize) -> usize
    requires n_le_most_vertices { n ≤ most_vertices }
    requires n_in_bounds { 3 * n ≤ length vertices.now }
    requires n_in_bounds_2 { at + 29 * n ≤ length out.old }
    ensures put { Put out.old at (lines vertex_line (threes_in n vertices.now)) out.new result }
    ensures upper_bound { result ≤ at + 29 * n }
{
    let mut next = at;
    for i in 0..n {
        let v = Three {
            x: vertices[3 * i],
            y: vertices[3 * i + 1],
            z: vertices[3 * i + 2],
        };
        next = put_three(out, next, b"v=", v, Form::Hex8);
    }
    next
}

// How many vertices there are, and the first n of them.
pub fn put_vertices(out: &mut [u8], at: usize, vertices: &[u32], n: usize) -> usize
    requires n_le_most_vertices { n ≤ most_vertices }
    requires n_in_bounds { 3 * n ≤ length vertices.now }
    requires n_in_bounds_2 { at + 20 + 29 * n ≤ length out.old }
    ensures put { Put out.old at (vertices_text (threes_in n vertices.now)) out.new result }
    ensures upper_bound { result ≤ at + 20 + 29 * n }
{
    let next = put_number(out, at, b"vertices=", n as u32);
    put_vertex_lines(out, next, vertices, n)
}

// A line for each index.
fn put_index_lines(out: &mut [u8], at: usize, indices: &[u32]) -> usize
    requires few { length indices.now ≤ index_room }
    requires room { at + 13 * length indices.now ≤ length out.old }
    ensures put { Put out.old at (lines index_line indices.now) out.new result }
    ensures upper_bound { result ≤ at + 13 * length indices.now }
{
    let mut next = at;
    for index in indices {
        next = put_number(out, next, b"i=", *index);
    }
    next
}

// How many indices there are, and the first n of them; or that there are none.
pub fn put_indices(out: &mut [u8], at: usize, given: Indices, indices: &[u32], n: usize) -> usize
    requires n_le_index_room { n ≤ index_room }
    requires n_in_bounds { n ≤ length indices.now }
    requires n_in_bounds_2 { at + 19 + 13 * n ≤ length out.old }
    ensures put { Put out.old at (indices_text (listed_as given (take n indices.now))) out.new result }
    ensures upper_bound { result ≤ at + 19 + 13 * n }
{
    match given {
        Indices::Given => {
            let next = put_number(out, at, b"indices=", n as u32);
            put_index_lines(out, next, &indices[..n])
        }
        Indices::None => put_all(out, at, b"indices=none\n"),
    }
}

// The line of the table's edition, where it was said.
fn put_table(out: &mut [u8], at: usize, table: Option<u32>) -> usize
    requires { at + 17 ≤ length out.old }
    ensures { Put out.old at (table_text table) out.new result }
{
    match table {
        None => at,
        Some(edition) => put_number(out, at, b"table=", edition),
    }
}

// The queue room, the pop limit and the table's edition.
pub fn put_tail(out: &mut [u8], at: usize, tail: Tail) -> usize
    requires { at + 50 ≤ length out.old }
    ensures { Put out.old at (tail_text tail) out.new result }
{
    let table = tail.table;
    let a = put_number(out, at, b"queue=", tail.room);
    let b = put_number(out, a, b"pops=", tail.limit);
    put_table(out, b, table)
}
