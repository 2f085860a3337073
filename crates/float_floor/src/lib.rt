// f32::floor, the port's own: as a whole number, and as a cell of a row. A part of the port: users call `sdf`.
#![tactic(auto)]

ghost use Rattle.std.specs.Prelude.{◌≡◌, ◌^◌, ◌<◌, true, pos, negsuc};
ghost use Rattle.float.specs.Arith.{f0, ◌≦◌, ◌≺◌};
ghost use Rattle.float_floor.specs.Cell.{floor_of, Snapped};

// The floor of an x that is at least 0, at most 2^63 - 1.
fn floor_from_zero(x: f32) -> u64
    requires { f0 ≦ x ≡ true }
    ensures { (result < 2 ^ 63) × (floor_of x ≡ pos result) }
{
    if x < 9223372036854775808.0 {
        return std::num::truncating_f32_to_u64(x);
    }
    0x7fff_ffff_ffff_ffff
}

// How far below -1 the floor of an x below 0 lies, at most 2^63 - 1: one less than -x rounded up. The whole part k of -x is
// that where a fraction is left, and one more where none is. From 2^24 on a float has no fraction.
fn floor_below_zero(x: f32) -> u64
    requires { x ≺ f0 ≡ true }
    ensures { (result < 2 ^ 63) × (floor_of x ≡ negsuc result) }
{
    let size = -x;
    if size < 9223372036854775808.0 {
        let k = std::num::truncating_f32_to_u64(size);
        if k >= 16777216 {
            return k - 1;
        }
        if (k as f32) < size {
            return k;
        }
        return k - 1;
    }
    0x7fff_ffff_ffff_ffff
}

// f32::floor as a whole number: the largest that is at most x, or the end of an i64 that is nearest to it. Below zero it goes
// down: -0.25 gives -1. A NaN gives 0, as the Rust cast does.
pub fn floor(x: f32) -> i64
    ensures { result ≡ floor_of x }
{
    if x >= 0.0 {
        return floor_from_zero(x) as i64;
    }
    if x < 0.0 {
        return -1 - (floor_below_zero(x) as i64);
    }
    0
}

// A cell of a row, and whether the quotient that it is for lay outside the row.
#[derive(Clone, Copy)]
pub struct Place {
    pub index: u32,
    pub clamped: bool,
}

fn wide(x: u32) -> u64
    ensures { result ≡ x }
{
    x as u64
}

// The cell of q in a row of count cells: the floor of q, clamped to 0 .. count - 1. Below 2^32 the
// floor is q without its fraction, and from there on it is past any row. A NaN passes no test and
// goes to 0, which is inside.
pub fn cell(q: f32, count: u32) -> Place
    ensures { Snapped count q result.index result.clamped }
{
    if count == 0 {
        return Place {
            index: 0,
            clamped: true,
        };
    }
    let last = count - 1;
    if q >= 0.0 {
        if q < 4294967296.0 {
            let k = std::num::truncating_f32_to_u64(q);
            if k < wide(count) {
                let index = k as u32;
                return Place {
                    index: index,
                    clamped: false,
                };
            }
            return Place {
                index: last,
                clamped: true,
            };
        }
        return Place {
            index: last,
            clamped: true,
        };
    }
    Place {
        index: 0,
        clamped: q < 0.0,
    }
}
