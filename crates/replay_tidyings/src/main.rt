// Replays the stored sample of texts for the tidier (samples/README.md): prints a line for each difference, and last how
// many texts there were and how many differences in all.
#![tactic(auto)]

use replay_pairs::{Program, replay};
use std::io;

fn main(rt: HostRuntime) -> io::Result<()> {
    replay(&rt, &mut rt.stdin(), Program::Tidier, b"texts=")?;
    Ok(())
}
