// A byte, and a row of bytes.
ghost use Rattle.std.specs.Prelude.{◌+◌, ◌<◌, ◌≤◌, length, [], ◌∷◌};
ghost use Rattle.lists.specs.Put.{Put};

pub fn put(out: &mut [u8], at: usize, b: u8) -> usize
    requires { at < length out.old }
    ensures { Put out.old at (b ∷ []) out.new result }
{
    out[at] = b;
    at + 1
}

pub fn put_all(out: &mut [u8], at: usize, word: &[u8]) -> usize
    requires { at + length word.now ≤ length out.old }
    ensures { Put out.old at word.now out.new result }
{
    let end = at + word.len();
    out[at..end].copy_from_slice(word);
    end
}
