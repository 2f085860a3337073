// The port's own float steps: what Rust's f32 offers as methods and Rattle does not. A part of the
// public face `sdf`, not called by users on its own. The definitions and laws of the square root stand here; its
// code is the crate `float_root`. The floor is the crate `float_floor`.
#![tactic(auto)]

ghost use Rattle.std.specs.Prelude.{◌≡◌};
ghost use Rattle.float.specs.Arith.{f0, f1};
ghost use Rattle.float.specs.Steps.{abs_of, sign_bit, clamp_of, least_of, greatest_of, finite_at_most};

// f32::abs: the sign bit is cleared, that of -0 too. A NaN stays a NaN.
pub fn abs(x: f32) -> f32
    ensures { result ≡ abs_of x }
{
    if x != x {
        return x;
    }
    f32::from_bits(f32::to_bits(x) % 0x8000_0000)
}

// f32::is_sign_negative, for a number: whether the sign bit is set, that of -0 too. A NaN has none here.
pub fn sign_bit(x: f32) -> bool
    ensures { result ≡ sign_bit x }
{
    if x != x {
        return false;
    }
    f32::to_bits(x) >= 0x8000_0000
}

// f32::clamp(lo, hi): a NaN stays.
pub fn clamp(x: f32, lo: f32, hi: f32) -> f32
    ensures { result ≡ clamp_of lo hi x }
{
    if x < lo {
        lo
    } else if x > hi {
        hi
    } else {
        x
    }
}

// f32::clamp(0.0, 1.0): a NaN stays, and so does -0.
pub fn clamp01(t: f32) -> f32
    ensures { result ≡ clamp_of f0 f1 t }
{
    clamp(t, 0.0, 1.0)
}

// f32::min: the smaller, and of a NaN and another value the other. Of two zeros it is the first.
pub fn least(x: f32, y: f32) -> f32
    ensures { result ≡ least_of x y }
{
    if y < x {
        y
    } else if x != x {
        y
    } else {
        x
    }
}

// f32::max: the larger, and of a NaN and another value the other. Of two zeros it is the first.
pub fn greatest(x: f32, y: f32) -> f32
    ensures { result ≡ greatest_of x y }
{
    if x < y {
        y
    } else if x != x {
        y
    } else {
        x
    }
}

// Whether x is finite and of magnitude at most the bound.
pub fn finite_at_most(x: f32, bound: f32) -> bool
    ensures { result ≡ finite_at_most x bound }
{
    let size = abs(x);
    if size <= 3.4028235e38 {
        size <= bound
    } else {
        false
    }
}
