// Replays the stored sample of whole jobs (samples/README.md): prints a line for each difference, and last how many jobs
// there were and how many differences in all.
#![tactic(auto)]

use replay_pairs::{Program, replay};
use std::io;

fn main(rt: HostRuntime) -> io::Result<()> {
    replay(&rt, &mut rt.stdin(), Program::Job, b"jobs=")?;
    Ok(())
}
