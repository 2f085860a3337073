// The square root, rounded to the nearest binary32: the digits are a whole number, so the root of a whole number is
// guessed by a table and then corrected by comparing squares (`float_root_whole`). A part of the public face `sdf`.
#![tactic(auto)]

ghost use Rattle.std.specs.Prelude.{◌≡◌, ◌+◌, ◌-◌, ◌*◌, ◌/◌, ◌%◌, ◌^◌, ◌≤◌, ◌<◌};
ghost use Rattle.float.specs.RootOf.{NormalForm, root_bits, IsRoot};

use float_root_table::entry;

// The pattern of a number above zero with an exponent's field that has no lower end, offset by 24,
// and so with a leading one above its 23 digits: a subnormal's digits are shifted up by its count
// of leading zeros.
fn normalised(b: u32) -> u32
    requires { (0 < b) × (b < 0x7f80_0000) }
    ensures { NormalForm b result }
{
    if b < 0x80_0000 {
        let z = u32::leading_zeros(b);
        (32 - z) * 0x80_0000 + ((b << (z - 8)) - 0x80_0000)
    } else {
        b + 0xb80_0000
    }
}

// The number whose root has the digits of the result: the 24 digits of w times 2^23, or 2^24 for an
// odd exponent.
fn lifted(w: u32) -> u64
    ensures { (2 ^ 46 ≤ result) × (result ≤ 2 ^ 48 - 2 ^ 24) × (result ≡ (w % 2 ^ 23 + 2 ^ 23) * 2 ^ 23 * 2 ^ (w / 2 ^ 23 % 2)) }
{
    let m = (w % 0x80_0000 + 0x80_0000) as u64;
    if (w >> 23) % 2 == 0 {
        m * 0x80_0000
    } else {
        m * 0x100_0000
    }
}

// A number near the root of `lifted(w)`: it is off by one for 24 of 1,000 patterns, and never by
// more. Only its size is promised.
fn guess(w: u32) -> u64
    ensures { (2 ^ 23 ≤ result) × (result < 2 ^ 25) }
{
    let row = entry((w >> 17) % 128);
    let d = (w % 0x2_0000) as u64;
    let bulge = ((0x2_0000 - d) * (row % 0x2000)) >> 16;
    let rise = (d * ((row >> 13) % 0x40_0000 + bulge)) >> 17;
    ((row >> 35) + rise) >> 5
}

// The pattern of the root of the number above zero whose pattern is b.
fn root_bits(b: u32) -> u32
    requires { (0 < b) × (b < 0x7f80_0000) }
    ensures { (result < 0x7f80_0000) × (result ≡ root_bits b) }
{
    let w = normalised(b);
    let q = float_root_whole::nearest_root(lifted(w), guess(w));
    (51 + (w >> 24)) * 0x80_0000 + (q as u32)
}

// The root on bit patterns. Every NaN, and all that is below zero, gives 7fc00000.
pub fn sqrt_bits(b: u32) -> u32
    ensures { result ≡ root_bits b }
{
    if b == 0 {
        return 0;
    }
    if b < 0x7f80_0000 {
        return root_bits(b);
    }
    if b == 0x7f80_0000 {
        return 0x7f80_0000;
    }
    if b == 0x8000_0000 {
        return 0x8000_0000;
    }
    0x7fc0_0000
}

// The root of x. A zero, +infinity and a NaN give themselves, and what is below zero gives a NaN.
pub fn sqrt(x: f32) -> f32
    ensures { IsRoot x result }
{
    if x > 0.0 {
        let b = f32::to_bits(x);
        if b < 0x7f80_0000 {
            return f32::from_bits(root_bits(b));
        }
        return x;
    }
    if x < 0.0 {
        return 0.0 / 0.0;
    }
    x
}
