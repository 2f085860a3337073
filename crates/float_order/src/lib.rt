// The order of two distances, `compare_distances` of document 004, and what the run asks of it: which of two is nearer, and
// the key by which the queue orders. A part of the public face `sdf`.
//
// A magnitude is carried here as its bit pattern: without a sign bit patterns are ordered as the
// numbers that they stand for, infinity's being the largest, so one comparison of whole numbers
// orders two magnitudes.
#![tactic(auto)]

ghost use Rattle.std.specs.Prelude.{◌≡◌, not, ◌≤◌, T};
ghost use Rattle.std.specs.Float.{binary32};
ghost use Rattle.std.specs.Float.Ieee.{is_nan, of_bits};
ghost use Rattle.float_order.specs.Compare as Compare;
ghost use Rattle.float_order.specs.Nearer as Nearer;
ghost use Rattle.float_order.specs.Asked.{Compared};

use refusals::Refusal;
use std::cmp::Ordering;
use std::cmp::Ordering::{Greater, Less};

// The sign bit of a pattern.
const SIGN: u32 = 0x8000_0000;

// Whether the magnitude x is larger than y and not alike: their patterns differ by more than 2 and
// their rounded difference is above 1e-6. Of two infinities the difference is a NaN, above nothing.
fn beyond(x: u32, y: u32) -> bool
    requires x_bound { x ≤ 0x7f80_0000 }
    requires y_bound { y ≤ 0x7f80_0000 }
    ensures { result ≡ Compare.beyond (of_bits binary32 x) (of_bits binary32 y) }
{
    (x > y + 2) & (f32::from_bits(x) - f32::from_bits(y) > 1e-6)
}

// The order of two distances that are no NaN. With one sign bit the magnitudes decide, and patterns
// with one sign bit are ordered as their magnitudes. With two the positive one, whose pattern is the
// smaller, comes first, unless it lies beyond the other.
pub fn compare_distances(a: f32, b: f32) -> Ordering
    requires t { T (not (is_nan a)) }
    requires t_2 { T (not (is_nan b)) }
    ensures { result ≡ Compare.order a b }
{
    let p = f32::to_bits(a);
    let q = f32::to_bits(b);
    if p / SIGN == q / SIGN {
        return p.cmp(&q);
    }
    if p < q {
        let far = beyond(p, q - SIGN);
        return if far { Greater } else { Less };
    }
    let far = beyond(q, p - SIGN);
    if far { Less } else { Greater }
}

// Whether a is nearer than b. A NaN is nearer than nothing, and nothing than a NaN.
#[tactic(auto, using(crate::proofs::Nearer::lt_is_less), unfolding(crate::specs::Nearer::nearer))]
pub fn is_nearer(a: f32, b: f32) -> bool
    ensures { result ≡ Nearer.nearer a b }
{
    if b.is_nan() | a.is_nan() {
        return false;
    }
    compare_distances(a, b).is_lt()
}

// The key of a distance, by which the queue orders: its magnitude's bit pattern, and behind it the sign bit.
pub fn key_of(d: f32) -> u32
    requires { T (not (is_nan d)) }
    ensures { result ≡ Nearer.key_of d }
{
    let b = f32::to_bits(d);
    b % SIGN * 2 + b / SIGN
}

// The comparison asked by itself: it refuses a NaN, where the Rust panics or goes by the NaN's bits.
pub fn compare(a: f32, b: f32) -> Result<Ordering, Refusal>
    ensures { Compared a b result }
{
    if a.is_nan() | b.is_nan() {
        return Err(Refusal::NotANumber);
    }
    Ok(compare_distances(a, b))
}
