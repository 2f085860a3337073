// The whole number nearest to the root of a whole number, off a guess, corrected by comparing squares. A part of the
// square root (`float_root`).
#![tactic(auto)]

ghost use Rattle.std.specs.Prelude.{◌+◌, ◌*◌, ◌^◌, ◌<◌};
ghost use Rattle.float.specs.RootOf.{NearestTo};

// From g down to a number that is not too large to be nearest to the root of n.
fn lowered(n: u64, g: u64) -> u64
    requires { (0 < n) × (n < 2 ^ 48) × (g < 2 ^ 25) }
    ensures { (result < 2 ^ 25) × (result * result < n + result) }
{
    let mut q = g;
    while n + q <= q * q {
        q -= 1;
    }
    q
}

// From such a number up to the nearest.
fn raised(n: u64, g: u64) -> u64
    requires { (n < 2 ^ 48) × (g < 2 ^ 25) × (g * g < n + g) }
    ensures { NearestTo n result }
{
    let mut q = g;
    while q * q + q < n {
        q += 1;
    }
    q
}

// The whole number nearest to the root of n, which g nearly always is.
pub fn nearest_root(n: u64, g: u64) -> u64
    requires { (0 < n) × (n < 2 ^ 48) × (g < 2 ^ 25) }
    ensures { NearestTo n result }
{
    let square = g * g;
    if square < n + g {
        if n <= square + g {
            return g;
        }
    }
    raised(n, lowered(n, g))
}
