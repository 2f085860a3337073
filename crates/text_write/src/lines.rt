// Lines: a key, values with one space between, and LF.
ghost use Rattle.std.specs.Prelude.{◌+◌, ◌*◌, ◌≤◌, length, [], ◌∷◌, ◌++◌};
ghost use Rattle.text.specs.Words.{decimal, decimal_long, space, lf};
ghost use Rattle.text.specs.TextJob.{three_text};
ghost use Rattle.lists.specs.Put.{Put};
ghost use Rattle.text_write.specs.Digits.{width};

use crate::bytes::{put, put_all};
use crate::numbers::{put_digits, put_value_then};
use text::{Form, Three};

// One number.
pub fn put_number(out: &mut [u8], at: usize, key: &[u8], n: u32) -> usize
    requires { at + length key.now + 11 ≤ length out.old }
    ensures put { Put out.old at (key.now ++ decimal n ++ lf ∷ []) out.new result }
    ensures upper_bound { result ≤ at + length key.now + 11 }
{
    let next = put_all(out, at, key);
    put_value_then(out, next, n, Form::Decimal, 10)
}

// Two numbers.
pub fn put_two(out: &mut [u8], at: usize, key: &[u8], a: u32, b: u32) -> usize
    requires { at + length key.now + 22 ≤ length out.old }
    ensures fact { let line = key.now ++ (decimal a ++ space ∷ decimal b) ++ lf ∷ [] in
        Put out.old at line out.new result }
    ensures upper_bound { result ≤ at + length key.now + 22 }
{
    let first = put_all(out, at, key);
    let second = put_value_then(out, first, a, Form::Decimal, 32);
    put_value_then(out, second, b, Form::Decimal, 10)
}

// One number that may pass 32 bits.
pub fn put_long_number(out: &mut [u8], at: usize, key: &[u8], n: u64) -> usize
    requires { at + length key.now + 21 ≤ length out.old }
    ensures put { Put out.old at (key.now ++ decimal_long n ++ lf ∷ []) out.new result }
    ensures upper_bound { result ≤ at + length key.now + 21 }
{
    let next = put_all(out, at, key);
    let end = put_digits(out, next, n, 19);
    put(out, end, 10)
}

// Three numbers, all in one form.
pub fn put_three(out: &mut [u8], at: usize, key: &[u8], t: Three, form: Form) -> usize
    requires { at + length key.now + 3 * (width form + 1) ≤ length out.old }
    ensures put { Put out.old at (key.now ++ three_text form t ++ lf ∷ []) out.new result }
    ensures upper_bound { result ≤ at + length key.now + 3 * (width form + 1) }
{
    let x = put_all(out, at, key);
    let y = put_value_then(out, x, t.x, form, 32);
    let z = put_value_then(out, y, t.y, form, 32);
    put_value_then(out, z, t.z, form, 10)
}
