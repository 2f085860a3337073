// Small steps on lent slices: numbers that grow by one. A part of the port: users call `sdf`.
#![tactic(auto)]

ghost use Rattle.std.specs.Prelude.{◌≡◌, cond, ◌+◌, ◌*◌, ◌<◌, length};
ghost use Rattle.slices.specs.Counts.{Room, PlacesBelow, Stepped};

// 1 where the test holds, to be added without a branch.
pub fn one_if(test: bool) -> u32
    ensures { result ≡ cond test 1 0 }
{
    test as u32
}

// Adds one to `count` numbers, from `start` on and `step` apart.
pub fn add_each(s: &mut [u32], start: usize, step: usize, count: usize)
    requires places_below { PlacesBelow start step count (length s.old) }
    requires step_nonzero { 0 < step }
    requires room { Room 1 s.old }
    ensures { Stepped start step count s.old s.new }
{
    for i in 0..count {
        s[start + i * step] += 1;
    }
}
