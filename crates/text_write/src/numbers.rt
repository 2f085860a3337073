// Numbers, spelled as a text has them: decimal without leading zeros, and eight lower-case hex digits.
ghost use Rattle.std.specs.Prelude.{◌+◌, ◌<◌, ◌≤◌, length, ◌≡◌, [], ◌∷◌, ◌++◌};
ghost use Rattle.text.specs.Words.{digits, decimal, hex_digit, hex, hex8};
ghost use Rattle.text.specs.TextJob.{spelled};
ghost use Rattle.lists.specs.Put.{Put};
ghost use Rattle.text_write.specs.Digits.{FewDigits, width};

use crate::bytes::put;
use text::Form;

// The digits of n, of which at most k stand before the last.
pub fn put_digits(out: &mut [u8], at: usize, n: u64, k: usize) -> usize
    requires k_in_bounds { at + k < length out.old }
    requires few_digits { FewDigits k n }
    ensures { Put out.old at (digits k n) out.new result }
{
    if n < 10 {
        return put(out, at, 48 + n as u8);
    }
    let next = put_digits(out, at, n / 10, k - 1);
    put(out, next, 48 + (n % 10) as u8)
}

fn put_decimal(out: &mut [u8], at: usize, n: u32) -> usize
    requires { at + 10 ≤ length out.old }
    ensures put { Put out.old at (decimal n) out.new result }
    ensures upper_bound { result ≤ at + 10 }
{
    put_digits(out, at, n as u64, 9)
}

fn hex_digit(n: u32) -> u8
    requires { n < 16 }
    ensures { result ≡ hex_digit n }
{
    if n < 10 { 48 + n as u8 } else { 87 + n as u8 }
}

// The last k hex digits of b.
fn put_hex(out: &mut [u8], at: usize, b: u32, k: usize) -> usize
    requires { at + k ≤ length out.old }
    ensures { Put out.old at (hex k b) out.new result }
{
    if k == 0 {
        return at;
    }
    let next = put_hex(out, at, b / 16, k - 1);
    put(out, next, hex_digit(b % 16))
}

fn put_hex8(out: &mut [u8], at: usize, b: u32) -> usize
    requires { at + 8 ≤ length out.old }
    ensures put { Put out.old at (hex8 b) out.new result }
    ensures upper_bound { result ≤ at + 8 }
{
    put_hex(out, at, b, 8)
}

fn put_value(out: &mut [u8], at: usize, n: u32, form: Form) -> usize
    requires { at + width form ≤ length out.old }
    ensures put { Put out.old at (spelled form n) out.new result }
    ensures upper_bound { result ≤ at + width form }
{
    match form {
        Form::Decimal => put_decimal(out, at, n),
        Form::Hex8 => put_hex8(out, at, n),
    }
}

// A number, and the byte after it: a space or the line's end.
pub fn put_value_then(out: &mut [u8], at: usize, n: u32, form: Form, b: u8) -> usize
    requires { at + width form + 1 ≤ length out.old }
    ensures put { Put out.old at (spelled form n ++ b ∷ []) out.new result }
    ensures upper_bound { result ≤ at + width form + 1 }
{
    let next = put_value(out, at, n, form);
    put(out, next, b)
}
