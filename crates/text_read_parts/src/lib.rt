// The parts of the job's text: the lines before the vertices, the vertices, the indices, and the lines
// after them (document 01, "One job, one listing"). A part of the reader: callers use `text_read_job::read_job`.
#![tactic(auto)]

ghost use Rattle.std.specs.Prelude.{◌≡◌, ◌*◌, ◌≤◌, length, take, drop};
ghost use Rattle.text.specs.Limits.{coordinate_room, index_room};
ghost use Rattle.text.specs.Reader.{head_at, vertex_line_at, vertices_at, index_at, indices_at, tail_at, lines_at};
ghost use Rattle.text_read_words.specs.Told.{got, got_next};
ghost use Rattle.text_read_parts.specs.Told.{got_vertices, RowIs, threes_in};

use mesh_topology::{Indices, Topology};
use text::{Head, MOST_ENTRIES, MOST_VERTICES, Tail, Three, most_indices};
use text_read_words::Read;

// Whether indices are given, and how many were stored.
#[derive(Clone, Copy)]
pub struct Row {
    pub given: Indices,
    pub count: usize,
}

// The lines before the vertices.
pub fn head(text: &[u8], at: usize) -> Option<Read<Head>>
    ensures { got text.now result ≡ head_at (drop at text.now) }
{
    let count = text_read_lines::count_line(text, at)?;
    let first = text_read_lines::floats_line(text, count.next, b"first=")?;
    let size = text_read_lines::floats_line(text, first.next, b"size=")?;
    let upright = text_read_lines::upright_line(text, size.next);
    let topology = text_read_lines::topology_line(text, upright.next)?;
    let sign = text_read_lines::sign_line(text, topology.next);
    Some(Read {
        value: Head {
            count: count.value,
            first: first.value,
            size: size.value,
            upright: upright.value,
            topology: topology.value,
            sign: sign.value,
        },
        next: sign.next,
    })
}

fn vertex_line(text: &[u8], at: usize) -> Option<Read<Three>>
    ensures { got text.now result ≡ vertex_line_at (drop at text.now) }
{
    text_read_lines::floats_line(text, at, b"v=")
}

// The lines of n vertices, whose bits are stored three by three.
fn vertex_lines(text: &[u8], at: usize, n: usize, out: &mut [u32]) -> Option<usize>
    requires { 3 * n ≤ length out.old }
    ensures { got_next (threes_in n out.new) text.now result ≡ lines_at n vertex_line_at
        (drop at text.now) }
{
    let mut k = at;
    for i in 0..n {
        let vertex = vertex_line(text, k)?;
        out[3 * i] = vertex.value.x;
        out[3 * i + 1] = vertex.value.y;
        out[3 * i + 2] = vertex.value.z;
        k = vertex.next;
    }
    Some(k)
}

// How many vertices there are, and their lines.
pub fn vertices(text: &[u8], at: usize, out: &mut [u32]) -> Option<Read<u32>>
    requires { coordinate_room ≤ length out.old }
    ensures { got_vertices out.new text.now result ≡ vertices_at (drop at text.now) }
{
    let count = text_read_lines::number_line(text, at, b"vertices=", MOST_VERTICES)?;
    let next = vertex_lines(text, count.next, count.value as usize, out)?;
    Some(Read {
        value: count.value,
        next,
    })
}

fn index_line(text: &[u8], at: usize) -> Option<Read<u32>>
    ensures { got text.now result ≡ index_at (drop at text.now) }
{
    text_read_lines::number_line(text, at, b"i=", 4294967295)
}

// The lines of n indices.
fn index_lines(text: &[u8], at: usize, n: usize, out: &mut [u32]) -> Option<usize>
    requires { n ≤ length out.old }
    ensures { got_next (take n out.new) text.now result ≡ lines_at n index_at (drop at text.now) }
{
    let mut k = at;
    for i in 0..n {
        let index = index_line(text, k)?;
        out[i] = index.value;
        k = index.next;
    }
    Some(k)
}

// That there are no indices; or how many, as many as the topology may have, and their lines.
pub fn indices(text: &[u8], at: usize, topology: Topology, out: &mut [u32]) -> Option<Read<Row>>
    requires { index_room ≤ length out.old }
    ensures { RowIs topology out.new text.now result (indices_at topology (drop at text.now)) }
{
    if let Some(next) = text_read_words::after(text, at, b"indices=none\n") {
        return Some(Read {
            value: Row {
                given: Indices::None,
                count: 0,
            },
            next,
        });
    }
    let most = most_indices(topology);
    let number = text_read_lines::number_line(text, at, b"indices=", most)?;
    let count = number.value as usize;
    let next = index_lines(text, number.next, count, out)?;
    Some(Read {
        value: Row {
            given: Indices::Given,
            count,
        },
        next,
    })
}

// The lines after the indices.
pub fn tail(text: &[u8], at: usize) -> Option<Read<Tail>>
    ensures { got text.now result ≡ tail_at (drop at text.now) }
{
    let room = text_read_lines::number_line(text, at, b"queue=", MOST_ENTRIES)?;
    let limit = text_read_lines::number_line(text, room.next, b"pops=", 4294967295)?;
    let table = text_read_lines::table_line(text, limit.next);
    Some(Read {
        value: Tail {
            room: room.value,
            limit: limit.value,
            table: table.value,
        },
        next: table.next,
    })
}
