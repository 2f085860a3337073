// The text of the sample: words of eight hex digits, each with one space or line feed after it, so word n
// begins at byte 9 n. What is past the end of the text reads as 0.
ghost use Rattle.std.specs.Prelude.{◌≡◌, ◌+◌, ◌<◌, length};
ghost use Rattle.replay_steps.specs.Words as Words;

use c_records::{SdfCell, SdfGrid, SdfPoint};

fn digit(b: u8) -> u32
    ensures { (result < 16) × (result ≡ Words.sample_digit b) }
{
    if b < 48 {
        return 0;
    }
    if b < 58 {
        return (b - 48) as u32;
    }
    if b < 97 {
        return 0;
    }
    if b < 103 {
        return (b - 87) as u32;
    }
    0
}

// Two digits.
fn byte(text: &[u8], at: usize) -> u32
    requires { at + 1 < length text.now }
    ensures { (result < 256) × (result ≡ Words.sample_byte text.now at) }
{
    digit(text[at]) * 16 + digit(text[at + 1])
}

// Word k of the case that begins with word `base`.
pub fn word(text: &[u8], base: usize, k: usize) -> u32
    requires { k < 64 }
    ensures { result ≡ Words.sample_word text.now base k }
{
    let words = text.len() / 9;
    if words <= base {
        return 0;
    }
    if words - base <= k {
        return 0;
    }
    let at = (base + k) * 9;
    ((byte(text, at) * 256 + byte(text, at + 2)) * 256 + byte(text, at + 4)) * 256
        + byte(text, at + 6)
}

// The values that begin at word k of a case.

// A NaN's pattern is read as the language's one NaN.
pub fn real(text: &[u8], base: usize, k: usize) -> f32
    requires { k < 64 }
    ensures { result ≡ Words.sample_real text.now base k }
{
    let w = word(text, base, k);
    let size = w % 0x8000_0000;
    if 0x7f80_0000 < size {
        return 0.0 / 0.0;
    }
    let x = f32::from_bits(size);
    if size < w { -x } else { x }
}

pub fn point(text: &[u8], base: usize, k: usize) -> SdfPoint
    requires { k < 62 }
    ensures { result ≡ Words.sample_point text.now base k }
{
    SdfPoint {
        x: real(text, base, k),
        y: real(text, base, k + 1),
        z: real(text, base, k + 2),
    }
}

pub fn cell(text: &[u8], base: usize, k: usize) -> SdfCell
    requires { k < 62 }
    ensures { result ≡ Words.sample_cell text.now base k }
{
    SdfCell {
        x: word(text, base, k),
        y: word(text, base, k + 1),
        z: word(text, base, k + 2),
    }
}

// A grid is the first that goes into a step.
pub fn grid(text: &[u8], base: usize) -> SdfGrid
    ensures { result ≡ Words.sample_grid text.now base }
{
    SdfGrid {
        first: point(text, base, 1),
        size: point(text, base, 4),
        count: cell(text, base, 7),
        upright: word(text, base, 10),
    }
}

// Whether the value that begins at word k is that of the port, bit for bit.

pub fn is_word(text: &[u8], base: usize, k: usize, w: u32) -> bool
    requires { k < 64 }
    ensures { result ≡ Words.is_sample_word text.now base k w }
{
    word(text, base, k) == w
}

// The NaN is stored as 7fc00000.
pub fn is_real(text: &[u8], base: usize, k: usize, x: f32) -> bool
    requires { k < 64 }
    ensures { result ≡ Words.is_sample_real text.now base k x }
{
    let w = word(text, base, k);
    if x != x {
        return w == 0x7fc0_0000;
    }
    w == f32::to_bits(x)
}

pub fn is_point(text: &[u8], base: usize, k: usize, p: SdfPoint) -> bool
    requires { k < 62 }
    ensures { result ≡ Words.is_sample_point text.now base k p }
{
    is_real(text, base, k, p.x) & is_real(text, base, k + 1, p.y) & is_real(text, base, k + 2, p.z)
}

pub fn is_cell(text: &[u8], base: usize, k: usize, c: SdfCell) -> bool
    requires { k < 62 }
    ensures { result ≡ Words.is_sample_cell text.now base k c }
{
    is_word(text, base, k, c.x) & is_word(text, base, k + 1, c.y) & is_word(text, base, k + 2, c.z)
}
