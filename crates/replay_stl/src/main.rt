// Reads the stored scanner files, those of real tools and damaged ones, and prints what each is read as and what is
// written of it again (samples/README.md has the format). What it must print was made from the same files by a reader and
// a writer of another language.
#![tactic(auto)]

ghost use Rattle.std.specs.Prelude.{◌≡◌, ◌+◌, ◌*◌, ◌<◌, ◌≤◌, length};

use sdf::Refusal;
use std::io;
use std::io::Read;

// A stored file has at most 80 facets.
const MOST_FACETS: u32 = 80;

fn numbers() -> [f32; 720]
    ensures { 720 ≡ length result }
{
    [0.0; 720]
}

// The eight hex digits of a word. Not `{w:08x}`: nearly all that is printed are words, and with it a whole run took
// twice the instructions and more.
fn print_word(rt: &impl Print, w: u32) -> io::Result<()> {
    let mut digits = [0u8; 8];
    let mut rest = w;
    for digit in digits.iter_mut().rev() {
        *digit = b"0123456789abcdef"[(rest % 16) as usize];
        rest /= 16;
    }
    rt.write_all(&digits)
}

// A key and words of four bytes, from the place `from` on.
fn print_words(
    rt: &impl Print,
    key: &[u8],
    bytes: &[u8],
    from: usize,
    words: usize,
) -> io::Result<()>
    requires { from + 4 * words ≤ length bytes.now }
{
    rt.write_all(key)?;
    for i in 0..words {
        if 0 < i {
            rt.write_all(b" ")?;
        }
        print_word(rt, stl::word(bytes, from + 4 * i))?;
    }
    Ok(())
}

// A key and an answer: its number and its facets.
fn print_answer(rt: &impl Print, key: &[u8], answer: Result<u32, Refusal>) -> io::Result<()> {
    rt.write_all(key)?;
    match answer {
        Err(refusal) => println!(rt; "{} 0", refusal.number()),
        Ok(facets) => println!(rt; "0 {facets}"),
    }
}

// A line for a corner, whose numbers stand from `at` on.
fn print_corner(rt: &impl Print, vertices: &[f32], at: usize) -> io::Result<()>
    requires { at + 3 ≤ length vertices.now }
{
    rt.write_all(b"v=")?;
    print_word(rt, float_bits::bits_of(vertices[at]))?;
    rt.write_all(b" ")?;
    print_word(rt, float_bits::bits_of(vertices[at + 1]))?;
    rt.write_all(b" ")?;
    print_word(rt, float_bits::bits_of(vertices[at + 2]))?;
    rt.write_all(b"\n")
}

fn print_corners(rt: &impl Print, vertices: &[f32], corners: usize) -> io::Result<()>
    requires { 3 * corners ≤ length vertices.now }
{
    for i in 0..corners {
        print_corner(rt, vertices, 3 * i)?;
    }
    Ok(())
}

// A line for the record that stands at `at`: twelve words, and the last two bytes as one more.
fn print_record(rt: &impl Print, file: &[u8], at: usize) -> io::Result<()>
    requires { at + 50 ≤ length file.now }
{
    print_words(rt, b"f=", file, at, 12)?;
    rt.write_all(b" ")?;
    print_word(rt, stl::word(file, at + 46) / 65536)?;
    rt.write_all(b"\n")
}

// A file that was written: its head, and its records.
fn print_file(rt: &impl Print, file: &[u8], facets: usize) -> io::Result<()>
    requires { length file.now ≡ 84 + 50 * facets }
{
    print_words(rt, b"h=", file, 0, 21)?;
    rt.write_all(b"\n")?;
    for k in 0..facets {
        print_record(rt, file, 84 + 50 * k)?;
    }
    Ok(())
}

// The corners that were read, written again into lent bytes of the right length.
fn show_written(rt: &impl Print, corners: &[f32], again: &mut [u8], facets: usize) -> io::Result<()>
    requires { length again.old ≡ 84 + 50 * facets }
{
    let written = sdf::write_stl(corners, again);
    print_answer(rt, b"write=", written)?;
    print_file(rt, again, facets)
}

// The corners of a file, into a lent buffer of the right length, and what is written of them again.
fn show_corners(rt: &impl Print, file: &[u8], corners: &mut [f32], facets: usize) -> io::Result<()>
    requires facets_bound { facets ≤ 80 }
    requires corners_len { length corners.old ≡ 9 * facets }
{
    let read = sdf::read_stl(file, corners);
    print_answer(rt, b"read=", read)?;
    print_corners(rt, corners, 3 * facets)?;
    let mut again = streams::buffer();
    let m = 84 + 50 * facets;
    show_written(rt, corners, &mut again[..m], facets)
}

fn show_read(rt: &impl Print, file: &[u8], facets: usize) -> io::Result<()>
    requires { facets ≤ 80 }
{
    let mut corners = numbers();
    let n = 9 * facets;
    show_corners(rt, file, &mut corners[..n], facets)
}

fn show(rt: &impl Print, file: &[u8]) -> io::Result<()> {
    let found = sdf::stl_count(file);
    print_answer(rt, b"facets=", found)?;
    if let Ok(facets) = found {
        if facets <= MOST_FACETS {
            show_read(rt, file, facets as usize)?;
        }
    }
    Ok(())
}

// Reads the length that stands before a file, four bytes; none where the input ends.
fn next_length(input: &mut impl Read) -> io::Result<Option<u32>> {
    let mut four = [0u8; 4];
    let got = streams::read_full(input, &mut four)?;
    if got < 4 {
        return Ok(None);
    }
    Ok(Some(stl::word(&four, 0)))
}

// Reads the next file, number i, into the lent bytes, which it fills, and shows it.
fn show_next(rt: &impl Print, input: &mut impl Read, i: u64, file: &mut [u8]) -> io::Result<()> {
    let n = streams::read_full(input, file)?;
    println!(rt; "file={i} {n}")?;
    show(rt, &file[..n])
}

fn show_file(rt: &impl Print, input: &mut impl Read, i: u64, bytes: usize) -> io::Result<()>
    requires { bytes ≤ 4096 }
{
    let mut room = streams::buffer();
    show_next(rt, input, i, &mut room[..bytes])
}

fn main(rt: HostRuntime) -> io::Result<()> {
    let mut input = rt.stdin();
    // A loop has to end, and nothing says that the input does.
    for i in 0..1_000_000 {
        let Some(bytes) = next_length(&mut input)? else {
            return Ok(());
        };
        if 4096 < bytes {
            return Ok(());
        }
        show_file(&rt, &mut input, i, bytes as usize)?;
    }
    Ok(())
}
