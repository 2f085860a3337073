// What a line of the job's text is made of: words and numbers (document 01, "One job, one listing"). Each
// function looks at one place of the text, and tells what stands there and the place behind it. A part of
// the reader: callers use `text_read_job::read_job`.
#![tactic(auto)]

ghost use Rattle.std.specs.Prelude.{◌≡◌, drop};
ghost use Rattle.text.specs.Reader.{hex_value, word_at, number_at, bits_at, value_at};
ghost use Rattle.text_read_words.specs.Told.{got, got_next};

use text::Form;

// A value that was read, and the place behind it.
#[derive(Clone, Copy)]
pub struct Read<T> {
    pub value: T,
    pub next: usize,
}

// The value of a lower-case hex digit, and 16 of any other byte.
fn digit(b: u8) -> u32
    ensures { result ≡ hex_value b }
{
    if b < b'0' {
        return 16;
    }
    if b <= b'9' {
        return (b - b'0') as u32;
    }
    if b < b'a' {
        return 16;
    }
    if b <= b'f' {
        return (b - b'a') as u32 + 10;
    }
    16
}

// A word: the place behind it.
pub fn after(text: &[u8], at: usize, word: &[u8]) -> Option<usize>
    ensures { got_next tt text.now result ≡ word_at word.now (drop at text.now) }
{
    let mut k = at;
    for b in word {
        if text.len() <= k {
            return None;
        }
        if text[k] != *b {
            return None;
        }
        k += 1;
    }
    Some(k)
}

// A decimal number without leading zeros, up to 4,294,967,295, and the byte `stop`.
pub fn decimal(text: &[u8], at: usize, stop: u8) -> Option<Read<u32>>
    ensures { got text.now result ≡ number_at stop (drop at text.now) }
{
    if text.len() <= at {
        return None;
    }
    let mut value = digit(text[at]);
    if 10 <= value {
        return None;
    }
    for k in at + 1..text.len() {
        let b = text[k];
        if b == stop {
            return Some(Read { value, next: k + 1 });
        }
        if value == 0 {
            return None;
        }
        let d = digit(b);
        if 10 <= d {
            return None;
        }
        let longer = 10 * (value as u64) + (d as u64);
        if 4294967295 < longer {
            return None;
        }
        value = longer as u32;
    }
    None
}

// Eight lower-case hex digits, and the byte `stop`.
fn hex8(text: &[u8], at: usize, stop: u8) -> Option<Read<u32>>
    ensures { got text.now result ≡ bits_at stop (drop at text.now) }
{
    let mut value: u64 = 0;
    let mut k = at;
    for i in 0..8_usize {
        if text.len() <= k {
            return None;
        }
        let d = digit(text[k]);
        if 16 <= d {
            return None;
        }
        value = 16 * value + (d as u64);
        k += 1;
    }
    if text.len() <= k {
        return None;
    }
    if text[k] != stop {
        return None;
    }
    Some(Read {
        value: value as u32,
        next: k + 1,
    })
}

// A number in either form, and the byte `stop`.
pub fn value(text: &[u8], at: usize, stop: u8, form: Form) -> Option<Read<u32>>
    ensures { got text.now result ≡ value_at form stop (drop at text.now) }
{
    match form {
        Form::Decimal => decimal(text, at, stop),
        Form::Hex8 => hex8(text, at, stop),
    }
}
