// A float and its bit pattern, both ways and for every value. Rust's `f32::from_bits` and `f32::to_bits` are not asked for a
// NaN: the language has one NaN, and compiled code may carry any of its patterns. A part of the port: users call `sdf`.
#![tactic(auto)]

ghost use Rattle.std.specs.Float.{binary32};
ghost use Rattle.std.specs.Float.Ieee.{of_bits, to_bits};
ghost use Rattle.std.specs.Prelude.{◌≡◌};

// The float that a pattern stands for. Every NaN's pattern is read as the one NaN.
pub fn float_of(b: u32) -> f32
    ensures { result ≡ of_bits binary32 b }
{
    if 0x7f80_0000 < b % 0x8000_0000 {
        return 0.0 / 0.0;
    }
    f32::from_bits(b)
}

// The pattern of a float. The NaN's is 7fc00000.
pub fn bits_of(x: f32) -> u32
    ensures { result ≡ to_bits binary32 x }
{
    if x != x {
        return 0x7fc0_0000;
    }
    f32::to_bits(x)
}
