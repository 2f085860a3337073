// A triangle is offered to a cell by its signed square: the squared distance, negated where the cell lies behind the triangle.
// Here is the distance that it stands for; and most offers are no nearer than what the cell holds: where the square already
// shows that, no root is worked out. A part of the port: users call `sdf`.
#![tactic(auto)]

ghost use Rattle.std.specs.Prelude.{◌≡◌};
ghost use Rattle.float_shortcut.specs.Shown.{signed_root, size_of, Shown};

// The root of the magnitude, with the sign of q. With Raycast signs every square is positive, so that comes first.
pub fn signed_root(q: f32) -> f32
    ensures { result ≡ signed_root q }
{
    if q > 0.0 {
        return float_root::sqrt(q);
    }
    let root = float_root::sqrt(float::abs(q));
    if float::sign_bit(q) { -root } else { root }
}

// q or -q, whichever is not below 0. It is one instruction, where clearing the sign bit of a value that may be a NaN is more.
fn size_of(q: f32) -> f32
    ensures { result ≡ size_of q }
{
    let back = -q;
    if q < back { back } else { q }
}

// Whether q shows that its signed root is not nearer than h: its magnitude is at least the square of h, and it is no positive
// value that meets a negative one, before which it may go all the same. The square of an f32 is exact in an f64. A NaN shows
// nothing. There is no branch on the sign of q, which differs from cell to cell; a held zero is left to the root.
pub fn not_nearer(q: f32, h: f32) -> bool
    ensures { Shown q h result }
{
    let wide = std::num::f32_to_f64_with_nan(h);
    if wide * wide <= std::num::f32_to_f64_with_nan(size_of(q)) {
        return (h > 0.0) | (q < 0.0);
    }
    false
}
