// Replays a stored sample of step answers: each case of standard input is asked of the public face, through
// its functions for C, and the answer held to the stored one, bit for bit. The stored answers are those of
// the unmodified Rust, or document 01's refusals (samples/README.md has the format). Prints a line for each
// difference, and last how many cases and differences there were.
#![tactic(auto)]

mod geometry;
mod grids;
mod words;

ghost use Rattle.std.specs.Prelude.{◌<◌, ◌≤◌, IfOk};

use std::io;
use streams::{large_buffer, read_full};

// The steps, by their number.

fn geometry_step(text: &[u8], base: usize, step: u32) -> bool {
    match step {
        0 => geometry::sqrt(text, base),
        1 => geometry::sqrt_bits(text, base),
        2 => geometry::compare(text, base),
        3 => geometry::triangle_box(text, base),
        4 => geometry::segment(text, base),
        5 => geometry::triangle(text, base),
        6 => geometry::distance(text, base),
        7 => geometry::ray(text, base),
        19 => geometry::signed_distance(text, base),
        _ => false,
    }
}

fn grid_step(text: &[u8], base: usize, step: u32) -> bool {
    match step {
        8 => grids::first(text, base),
        9 => grids::last(text, base),
        10 => grids::size(text, base),
        11 => grids::counts(text, base),
        12 => grids::total(text, base),
        13 => grids::bounding_box(text, base),
        14 => grids::index(text, base),
        15 => grids::coordinates(text, base),
        16 => grids::centre(text, base),
        17 => grids::snap(text, base),
        18 => grids::from_box(text, base),
        _ => false,
    }
}

// How many words a case of a step has: its number, what goes in and what comes out.
fn case_words(step: u32) -> usize
    ensures { (0 < result) × (result < 32) }
{
    match step {
        0 | 1 => 3,
        2 => 5,
        3 | 5 => 17,
        4 => 14,
        6 | 8 | 9 | 10 | 11 | 19 => 15,
        7 | 13 | 16 => 18,
        12 => 13,
        14 | 15 => 16,
        17 => 19,
        18 => 21,
        _ => 1,
    }
}

#[derive(Clone, Copy)]
struct Tally {
    cases: u64,
    differences: u64,
}

fn tell(rt: &impl Print, case: u64, step: u32) -> io::Result<()> {
    println!(rt; "difference case={case} step={step}")
}

// Asks the case that begins with word `base`, which is case number `case`: how many differences, 0 or 1.
fn differs(rt: &impl Print, text: &[u8], base: usize, case: u64) -> io::Result<u64>
    ensures { IfOk result (λ n. n ≤ 1) }
{
    let step = words::word(text, base, 0);
    let of_grid = (8 <= step) & (step < 19);
    let same = if of_grid {
        grid_step(text, base, step)
    } else {
        geometry_step(text, base, step)
    };
    if same {
        return Ok(0);
    }
    tell(rt, case, step)?;
    Ok(1)
}

fn replay(rt: &impl Print, text: &[u8]) -> io::Result<Tally>
    ensures { IfOk result (λ tally. tally.differences ≤ tally.cases) }
{
    let words = text.len() / 9;
    let mut cases: u64 = 0;
    let mut differences: u64 = 0;
    let mut base: usize = 0;
    // Where the next case begins is told by the step of this one: there is no count of cases to go by.
    while base < words {
        differences += differs(rt, text, base, cases)?;
        cases += 1;
        base += case_words(words::word(text, base, 0));
    }
    Ok(Tally { cases, differences })
}

fn main(rt: HostRuntime) -> io::Result<()> {
    let mut text = large_buffer();
    let n = read_full(&mut rt.stdin(), &mut text)?;
    let tally = replay(&rt, &text[..n])?;
    println!(rt; "cases={} differences={}", tally.cases, tally.differences)
}
