// Whole numbers kept in a lent row of floats, each as a float's bits: while a mesh is tidied, the coordinates' output holds
// links and marks (document 02, §10, lends no room for them). The floats are only moved, never computed with. A part of
// the port: users call `sdf`.
#![tactic(auto)]

ghost use Rattle.std.specs.Prelude.{◌≡◌, ◌^◌, ◌<◌, length, get_or, set};
ghost use Rattle.float_bits.specs.Patterns.{bits_of};

// The number at place i.
pub fn number_at(words: &[f32], i: usize) -> u32
    requires { i < length words.now }
    ensures { result ≡ get_or (bits_of words.now) i 0 }
{
    float_bits::bits_of(words[i])
}

// Puts x at place i. Below 2 ^ 23 no number has the bits of a NaN.
pub fn put_number(words: &mut [f32], i: usize, x: u32)
    requires i_in_bounds { i < length words.old }
    requires x_bound { x < 2 ^ 23 }
    ensures { bits_of words.new ≡ set (bits_of words.old) i x }
{
    words[i] = float_bits::float_of(x);
}
