// Replays a stored sample: each text of standard input is answered, and the answer held to the stored one, byte for byte.
// A job is answered by the library four times, over a flat queue and over a row of records, by the plain and by the
// quick pass; an old job's text is converted, and a job's text tidied. The stored answers are the unmodified Rust's and
// the models' (samples/README.md has the format). A part of the programs `replay_jobs`, `replay_conversions` and
// `replay_tidyings`.
#![tactic(auto)]

ghost use Rattle.std.specs.Prelude.{◌≡◌, true, ◌+◌, ◌*◌, ◌<◌, ◌≤◌, length, IfOk};
ghost use Rattle.std.specs.Io.{ReadsAtMost};
ghost use Rattle.text.specs.Limits.{listing_room, text_room};
ghost use Rattle.listing.specs.Listing.{Prints};
ghost use Rattle.text_convert.specs.Converted.{Converts};
ghost use Rattle.text_tidy.specs.Tidied.{Tidies, tidy_room};

use std::io;
use std::io::Read;
use streams::{large_buffer, read_full};
use terms::Pass;
use text::{LISTING_ROOM, TEXT_ROOM};

// A replay has to end, and nothing says that its input does: it is over after so many texts.
const MOST_TEXTS: u64 = 1_000_000;

// Which program's texts are replayed.
#[derive(Clone, Copy)]
pub enum Program {
    Job,
    Converter,
    Tidier,
}

// How many texts there were, and how many differences in all.
#[derive(Clone, Copy)]
pub struct Tally {
    pub texts: u64,
    pub differences: u64,
}

fn listing_room() -> [u8; LISTING_ROOM]
    ensures { listing_room ≡ length result }
{
    [0; LISTING_ROOM]
}

fn text_room() -> [u8; TEXT_ROOM]
    ensures { text_room ≡ length result }
{
    [0; TEXT_ROOM]
}

fn line_room() -> [u8; 128]
    ensures { 128 ≡ length result }
{
    [0; 128]
}

// Reads a line of standard input, at most as long as `line`: how many bytes stand before its LF.
fn read_line(input: &mut impl Read, line: &mut [u8]) -> io::Result<usize>
    ensures { IfOk result (λ n. n ≤ length line.new) }
{
    for i in 0..line.len() {
        let mut one = [0u8; 1];
        let got = read_full(input, &mut one)?;
        if got == 0 {
            return Ok(i);
        }
        let b = one[0];
        if b == 10 {
            return Ok(i);
        }
        line[i] = b;
    }
    Ok(line.len())
}

// Where the word begins that ends at `end`: behind the last space before it.
fn word_start(line: &[u8], end: usize) -> usize
    requires { end ≤ length line.now }
    ensures { result ≤ end }
{
    match line[..end].iter().rposition(|&b| b == 32) {
        Some(space) => space + 1,
        None => 0,
    }
}

// Where the word ends that stands before the one that begins at `start`.
fn before_space(start: usize) -> usize
    ensures { result ≤ start }
{
    start.saturating_sub(1)
}

// The number whose digits stand from `from` to `to`; 65,536 for any that is larger.
fn number_in(line: &[u8], from: usize, to: usize) -> usize
    requires { to ≤ length line.now }
    ensures { result ≤ 65536 }
{
    let mut value: usize = 0;
    for i in from..to {
        let d = (line[i] % 16) as usize;
        value = value * 10 + d;
        if 65536 < value {
            return 65536;
        }
    }
    value
}

// Reads n bytes of standard input to the front of `buf`, or as many as there are.
fn read_part(input: &mut impl Read, buf: &mut [u8], n: usize) -> io::Result<usize>
    requires { n ≤ length buf.old }
    ensures { ReadsAtMost result buf.new }
{
    read_full(input, &mut buf[..n])
}

// Whether the text is answered by the stored listing, over a row of records or over a flat queue, by this pass.
fn is_owed(text: &[u8], owed: &[u8], out: &mut [u8], records: bool, pass: Pass) -> bool
    requires { listing_room ≤ length out.old }
    ensures { let owes = Prints text.now owed.now in
        (result ≡ true → owes) × (owes → result ≡ true) }
{
    let n = text_answer::run_text_by(text, out, records, pass);
    &out[..n] == owed
}

// Whether the text is converted to the stored one.
fn is_converted(text: &[u8], owed: &[u8], out: &mut [u8]) -> bool
    requires { text_room ≤ length out.old }
    ensures { let owes = Converts text.now owed.now in
        (result ≡ true → owes) × (owes → result ≡ true) }
{
    let n = text_convert::convert_text(text, out);
    &out[..n] == owed
}

// Whether the text is tidied to the stored one.
fn is_tidied(text: &[u8], owed: &[u8], out: &mut [u8]) -> bool
    requires { tidy_room ≤ length out.old }
    ensures { let owes = Tidies text.now owed.now in
        (result ≡ true → owes) × (owes → result ≡ true) }
{
    let n = text_tidy::tidy_text(text, out);
    &out[..n] == owed
}

// Says that a text's answer differs: one difference.
fn print_difference(rt: &impl Print, number: u64) -> io::Result<u64>
    ensures { IfOk result (λ n. n ≡ 1) }
{
    println!(rt; "difference text={number}")?;
    Ok(1)
}

// How many differences the listing of a job shows, 0 or 1. Each answer has bytes of its own, so that none is taken for
// another's.
fn lists_otherwise(
    rt: &impl Print,
    text: &[u8],
    owed: &[u8],
    number: u64,
    records: bool,
    quick: bool,
) -> io::Result<u64>
    ensures { IfOk result (λ n. n ≤ 1) }
{
    let mut out = listing_room();
    let pass = if quick { Pass::Quick } else { Pass::Plain };
    if is_owed(text, owed, &mut out, records, pass) {
        return Ok(0);
    }
    print!(rt; "records={} quick={} ", records as u8, quick as u8)?;
    print_difference(rt, number)
}

// The same over both queues and by both passes.
fn job_differs(rt: &impl Print, text: &[u8], owed: &[u8], number: u64) -> io::Result<u64>
    ensures { IfOk result (λ n. n ≤ 4) }
{
    let flat_plain = lists_otherwise(rt, text, owed, number, false, false)?;
    let flat_quick = lists_otherwise(rt, text, owed, number, false, true)?;
    let row_plain = lists_otherwise(rt, text, owed, number, true, false)?;
    let row_quick = lists_otherwise(rt, text, owed, number, true, true)?;
    Ok(flat_plain + flat_quick + row_plain + row_quick)
}

// How many differences the conversion of a text shows, 0 or 1.
fn conversion_differs(rt: &impl Print, text: &[u8], owed: &[u8], number: u64) -> io::Result<u64>
    ensures { IfOk result (λ n. n ≤ 1) }
{
    let mut out = text_room();
    if is_converted(text, owed, &mut out) {
        return Ok(0);
    }
    print_difference(rt, number)
}

// How many differences the tidying of a text shows, 0 or 1.
fn tidying_differs(rt: &impl Print, text: &[u8], owed: &[u8], number: u64) -> io::Result<u64>
    ensures { IfOk result (λ n. n ≤ 1) }
{
    let mut out = large_buffer();
    if is_tidied(text, owed, &mut out) {
        return Ok(0);
    }
    print_difference(rt, number)
}

// Reads the text that the header line of n bytes announces, and what is owed to it: how many differences there are.
fn differs(
    rt: &impl Print,
    input: &mut impl Read,
    line: &[u8],
    n: usize,
    number: u64,
    program: Program,
) -> io::Result<u64>
    requires { n ≤ length line.now }
    ensures { IfOk result (λ found. found ≤ 4) }
{
    let last = word_start(line, n);
    let end = before_space(last);
    let before = word_start(line, end);
    let owed_bytes = number_in(line, last, n);
    let text_bytes = number_in(line, before, end);
    let mut text = large_buffer();
    let mut owed = large_buffer();
    let t = read_part(input, &mut text, text_bytes)?;
    let o = read_part(input, &mut owed, owed_bytes)?;
    match program {
        Program::Job => job_differs(rt, &text[..t], &owed[..o], number),
        Program::Converter => conversion_differs(rt, &text[..t], &owed[..o], number),
        Program::Tidier => tidying_differs(rt, &text[..t], &owed[..o], number),
    }
}

fn replay_all(rt: &impl Print, input: &mut impl Read, program: Program) -> io::Result<Tally>
    ensures { IfOk result (λ tally. tally.differences ≤ 4 * tally.texts) }
{
    let mut line = line_room();
    let mut differences: u64 = 0;
    for texts in 0..MOST_TEXTS {
        let n = read_line(input, &mut line)?;
        if n == 0 {
            return Ok(Tally { texts, differences });
        }
        differences += differs(rt, input, &line, n, texts, program)?;
    }
    Ok(Tally {
        texts: MOST_TEXTS,
        differences,
    })
}

// Replays the texts of a program. Prints a line for each difference, and last how many texts there were, after `key`,
// and how many differences in all.
pub fn replay(
    rt: &impl Print,
    input: &mut impl Read,
    program: Program,
    key: &[u8],
) -> io::Result<Tally>
    ensures { IfOk result (λ tally. tally.differences ≤ 4 * tally.texts) }
{
    let tally = replay_all(rt, input, program)?;
    rt.write_all(key)?;
    println!(rt; "{} differences={}", tally.texts, tally.differences)?;
    Ok(tally)
}
