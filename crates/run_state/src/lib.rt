// How far a run has come, and how queueing and spreading tell what they did to the lent field, names and queue
// (document 01, "The run", 2 and 3). A part of the port: users call `sdf`.
#![tactic(auto)]

ghost use Rattle.std.specs.Prelude.{◌≡◌};
ghost use Rattle.run_state.specs.Told.{refused_by};

// How far a run has come: 0, or the number of the refusal that ended it; how many entries wait; how many
// were taken; the most that waited at once.
// A refused run still tells its counts, so that the refusal is a number beside them, as `refused_by` of specs/Told.antt
// has it.
#[derive(Clone, Copy)]
pub struct Progress {
    pub number: u32,
    pub waiting: usize,
    pub pops: u32,
    pub peak: usize,
}

impl Progress {
    // The run is refused here.
    pub fn refused(self, number: u32) -> Progress
        ensures { result ≡ refused_by number self }
    {
        Progress {
            number: number,
            waiting: self.waiting,
            pops: self.pops,
            peak: self.peak,
        }
    }
}
