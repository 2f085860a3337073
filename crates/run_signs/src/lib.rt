// The signs: "a cell with two or three odd counts has its distance negated; 0 becomes −0" (document 01). A part of
// the port: users call `sdf`.
#![tactic(auto)]

ghost use Rattle.std.specs.Prelude.{◌≡◌, ◌+◌, ◌*◌, ◌<◌, length, if◌then◌else◌};
ghost use Rattle.std.specs.Float.Ieee.{neg};
ghost use Rattle.run.specs.Signs.{two_odd};
ghost use Rattle.run_signs.specs.Sign.{inside_at, signed_by};

// Whether at least two of the three are odd.
fn two_odd(x: u32, y: u32, z: u32) -> bool
    ensures { result ≡ two_odd x y z }
{
    let a = x % 2 == 1;
    let b = y % 2 == 1;
    let c = z % 2 == 1;
    (a & b) | (a & c) | (b & c)
}

// Whether cell i is deemed inside by its three crossing counts.
fn inside_at(crossings: &[u32], i: usize) -> bool
    requires { 3 * i + 2 < length crossings.now }
    ensures { result ≡ inside_at crossings.now i }
{
    let at = 3 * i;
    let x = crossings[at];
    let y = crossings[at + 1];
    let z = crossings[at + 2];
    two_odd(x, y, z)
}

// The distance with its sign. There is no branch on it, so that the loop below can be vector code.
fn negated_if(inside: bool, d: f32) -> f32
    ensures { result ≡ (if inside then neg d else d) }
{
    if inside { -d } else { d }
}

// Negates the distance of each cell that is deemed inside.
pub fn sign(crossings: &[u32], field: &mut [f32])
    requires { length crossings.now ≡ 3 * length field.old }
    ensures { field.new ≡ signed_by crossings.now field.old }
{
    for i in 0..field.len() {
        let inside = inside_at(crossings, i);
        field[i] = negated_if(inside, field[i]);
    }
}
