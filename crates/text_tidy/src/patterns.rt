// The bit patterns of floats. A NaN, which no tidied mesh holds, would have 7fc00000.
ghost use Rattle.std.specs.Prelude.{length, ◌≡◌};
ghost use Rattle.float_bits.specs.Patterns.{bits_of};

use float_bits::bits_of;

pub fn fill_bits(floats: &[f32], bits: &mut [u32])
    requires { length bits.old ≡ length floats.now }
    ensures { bits.new ≡ bits_of floats.now }
{
    for i in 0..floats.len() {
        bits[i] = bits_of(floats[i]);
    }
}
