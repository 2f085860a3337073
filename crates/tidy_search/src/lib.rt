// Where to look for three numbers among those that were entered before (document 02, §10: vertices of identical bits, triangles of
// the same numbers), with no room but a lent row of links, three for each item. The first n links are heads: a number of
// the key says with which head to begin. Behind them each item has two links of its own; a bit of the key says by which
// one to go on, another bit at each step. So every search ends after 96 steps at most, whatever the input, and after one
// or two as a rule. A link is 0, or the number of an item plus 1. What is found does not depend on how well the keys
// are spread, which is all that this file decides. A part of the port: users call `sdf`.
#![tactic(auto)]

ghost use Rattle.std.specs.Prelude.{◌≡◌, ◌+◌, ◌*◌, ◌^◌, ◌<◌};
ghost use Rattle.tidy_search.specs.Links.{mixed_of, head_link, turned_key, link_of};

use tidy::ThreeWords;

// A number and one more, mixed: the middle of a product.
fn mixed(h: u64, x: u32) -> u64
    requires { h < 2 ^ 32 }
    ensures { (result ≡ mixed_of h x) × (result < 2 ^ 32) }
{
    (h + x as u64) * 0x4F1B_BCDD / 0x1_0000 % 0x1_0000_0000
}

// With which of n heads to begin.
pub fn head(key: ThreeWords, n: usize) -> usize
    requires { (0 < n) × (n < 2 ^ 32) }
    ensures { (result ≡ head_link n key) × (result < n) }
{
    let h = mixed(mixed(mixed(0, key.a), key.b), key.c);
    h as usize * n / 0x1_0000_0000
}

// What is left of a key when a bit of its first number is used: the next step uses one of the second.
pub fn turn(rest: ThreeWords) -> ThreeWords
    ensures { result ≡ turned_key rest }
{
    ThreeWords {
        a: rest.b,
        b: rest.c,
        c: rest.a / 2,
    }
}

// The link of item w by which to go on.
pub fn link(n: usize, w: usize, rest: ThreeWords) -> usize
    requires { (n < 2 ^ 32) × (w < n) }
    ensures { (result ≡ link_of n w rest) × (result < 3 * n) }
{
    n + 2 * w + (rest.a % 2) as usize
}
