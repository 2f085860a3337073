// Makes each stored call of the index that says which cells a facet serves (document 02, §12), builds and updates, and
// prints the number that it answers, both slices as it leaves them, and the cells of each facet (samples/README.md has the
// format). What it must print was made from the same calls by a plain index of another language.
#![tactic(auto)]

ghost use Rattle.std.specs.Prelude.{◌≡◌, ◌≤◌, length, IfOk};

use refusals::Refusal;
use std::io;
use std::io::Read;

// A stored call has at most so many words in each of its four slices.
const ROOM: usize = 64;

fn room() -> [u32; ROOM]
    ensures { 64 ≡ length result }
{
    [0; ROOM]
}

// ---- what goes in

// The next four bytes as a number, the least first; 0 where the input ends.
fn next_word(input: &mut impl Read) -> io::Result<u32> {
    let mut four = [0u8; 4];
    let got = streams::read_full(input, &mut four)?;
    if got < 4 {
        return Ok(0);
    }
    Ok(stl::word(&four, 0))
}

// The next word as a length that there is room for.
fn next_length(input: &mut impl Read) -> io::Result<usize>
    ensures { IfOk result (λ n. n ≤ 64) }
{
    let words = next_word(input)? as usize;
    Ok(if words < ROOM { words } else { ROOM })
}

fn read_words(input: &mut impl Read, list: &mut [u32]) -> io::Result<()>
    ensures { length list.new ≡ length list.old }
{
    for word in list.iter_mut() {
        *word = next_word(input)?;
    }
    Ok(())
}

// ---- what comes out

fn print_number(rt: &impl Print, key: &[u8], number: u32) -> io::Result<()> {
    rt.write_all(key)?;
    rt.print(number)
}

// A line of numbers, one space between.
fn print_numbers(rt: &impl Print, key: &[u8], list: &[u32]) -> io::Result<()> {
    rt.write_all(key)?;
    for (i, number) in list.iter().enumerate() {
        if 0 < i {
            rt.write_all(b" ")?;
        }
        print_number(rt, b"", *number)?;
    }
    rt.write_all(b"\n")
}

fn show_facet(rt: &impl Print, facet: u32, starts: &[u32], list: &[u32]) -> io::Result<()> {
    print_number(rt, b"facet=", facet)?;
    print_numbers(rt, b" cells=", sdf::facet_cells(facet, starts, list))
}

// The cells of as many facets as there are starts, the last of which is none, and of two more.
fn show_facets(rt: &impl Print, starts: &[u32], list: &[u32]) -> io::Result<()>
    requires { length starts.now ≤ 64 }
{
    let facets = starts.len() as u32;
    for facet in 0..facets {
        show_facet(rt, facet, starts, list)?;
    }
    show_facet(rt, facets, starts, list)?;
    show_facet(rt, 4_294_967_295, starts, list)
}

// What a call answered, and the two slices as it left them.
fn show_left(rt: &impl Print, number: u32, starts: &[u32], list: &[u32]) -> io::Result<()>
    requires { length starts.now ≤ 64 }
{
    print_number(rt, b"answer=", number)?;
    print_numbers(rt, b"\nstarts=", starts)?;
    print_numbers(rt, b"list=", list)?;
    show_facets(rt, starts, list)
}

// ---- the calls

// The number of an answer: 0 where nothing is refused.
fn number_in(answer: Result<(), Refusal>) -> u32 {
    match answer {
        Ok(()) => 0,
        Err(refusal) => refusal.number(),
    }
}

fn build(
    rt: &impl Print,
    triangles: u32,
    names: &[u32],
    starts: &mut [u32],
    list: &mut [u32],
) -> io::Result<()>
    requires { length starts.old ≤ 64 }
{
    print_number(rt, b" build=", triangles)?;
    print_numbers(rt, b" names=", names)?;
    let number = number_in(sdf::index_build(triangles, names, starts, list));
    show_left(rt, number, starts, list)
}

fn update(
    rt: &impl Print,
    triangles: u32,
    old: &[u32],
    names: &[u32],
    starts: &mut [u32],
    list: &mut [u32],
) -> io::Result<()>
    requires { length starts.old ≤ 64 }
{
    print_number(rt, b" update=", triangles)?;
    print_numbers(rt, b" names=", names)?;
    let number = number_in(sdf::index_update(triangles, old, names, starts, list));
    show_left(rt, number, starts, list)
}

// Reads the four slices of a call, each as long as it is to be lent, and makes it: a build is 1, an update 2.
fn show_call(
    rt: &impl Print,
    input: &mut impl Read,
    kind: u32,
    triangles: u32,
    old: &mut [u32],
    names: &mut [u32],
    starts: &mut [u32],
    list: &mut [u32],
) -> io::Result<()>
    requires { length starts.old ≤ 64 }
{
    read_words(input, old)?;
    read_words(input, names)?;
    read_words(input, starts)?;
    read_words(input, list)?;
    if kind == 1 {
        build(rt, triangles, names, starts, list)
    } else {
        update(rt, triangles, old, names, starts, list)
    }
}

// The next call, number i: the triangles and four lengths stand before its slices.
fn show_next(rt: &impl Print, input: &mut impl Read, i: u32, kind: u32) -> io::Result<()> {
    print_number(rt, b"call=", i)?;
    let triangles = next_word(input)?;
    let old_long = next_length(input)?;
    let names_long = next_length(input)?;
    let starts_long = next_length(input)?;
    let list_long = next_length(input)?;
    let mut old = room();
    let mut names = room();
    let mut starts = room();
    let mut list = room();
    show_call(
        rt,
        input,
        kind,
        triangles,
        &mut old[..old_long],
        &mut names[..names_long],
        &mut starts[..starts_long],
        &mut list[..list_long],
    )
}

fn main(rt: HostRuntime) -> io::Result<()> {
    let mut input = rt.stdin();
    // A loop has to end, and nothing says that the input does.
    for i in 0..1_000_000 {
        let kind = next_word(&mut input)?;
        if kind == 0 {
            return Ok(());
        }
        show_next(&rt, &mut input, i, kind)?;
    }
    Ok(())
}
