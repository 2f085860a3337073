// The lines of what went: a number and its value for each vertex that was merged, and for each triangle that was dropped.
ghost use Rattle.std.specs.Prelude.{◌≡◌, ◌+◌, ◌*◌, ◌<◌, ◌≤◌, length, get_or};
ghost use Rattle.lists.specs.Put.{Put};
ghost use Rattle.text_tidy.specs.Parts.{Short};
ghost use Rattle.text_tidy.specs.Tidied.{staying, went_line, went_lines};

use crate::Went;
use text_write::put_two;

// The value that number i has where it stays.
fn value_of_staying(went: Went, i: u32) -> u32
    ensures { result ≡ staying went i }
{
    match went {
        Went::Merged => i,
        Went::Dropped => 0,
    }
}

// The line of number i, or nothing where it stays.
fn put_line(out: &mut [u8], at: usize, went: Went, i: u32, value: u32) -> usize
    requires at_in_bounds { at + 28 ≤ length out.old }
    requires i_bound { (i < 1000) × (value < 1000) }
    ensures put { Put out.old at (went_line went (λ _. value) i) out.new result }
    ensures upper_bound { result ≤ at + 14 }
{
    if value == value_of_staying(went, i) {
        return at;
    }
    match went {
        Went::Merged => put_two(out, at, b"merge=", i, value),
        Went::Dropped => put_two(out, at, b"drop=", i, value),
    }
}

// The lines of all numbers that do not stay, by their values, ascending.
pub fn put_went(out: &mut [u8], at: usize, went: Went, values: &[u32]) -> usize
    requires short { Short values.now }
    requires values_in_bounds { at + 14 * length values.now + 14 ≤ length out.old }
    ensures fact { let values = values.now in
        Put out.old at (went_lines went (λ i. get_or values i 0) (length values)) out.new result }
    ensures upper_bound { result ≤ at + 14 * length values.now }
{
    let mut next = at;
    for i in 0..values.len() {
        next = put_line(out, next, went, i as u32, values[i]);
    }
    next
}
