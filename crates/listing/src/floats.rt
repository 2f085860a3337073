// The floats that bit patterns stand for, and a buffer for those of a job's coordinates.
ghost use Rattle.std.specs.Prelude.{length, ◌≡◌};
ghost use Rattle.float_bits.specs.Patterns.{floats_of};
ghost use Rattle.text.specs.Limits.{coordinate_room};

use float_bits::float_of;
use text::COORDINATE_ROOM;

// That they are zero is not said, since nothing depends on it.
pub fn coordinate_floats() -> [f32; COORDINATE_ROOM]
    ensures { coordinate_room ≡ length result }
{
    [0.0; COORDINATE_ROOM]
}

pub fn fill(bits: &[u32], floats: &mut [f32])
    requires { length floats.old ≡ length bits.now }
    ensures { floats.new ≡ floats_of bits.now }
{
    for i in 0..bits.len() {
        floats[i] = float_of(bits[i]);
    }
}
