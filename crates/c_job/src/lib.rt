// What the whole job takes and gives for C beside slices and the records of `c_records`: a topology, whether indices
// are given, and the answer.
#![tactic(auto)]

ghost use Rattle.std.specs.Prelude.{◌≡◌};
ghost use Rattle.refusals.specs.Numbers.{reply_of};
ghost use Rattle.c_job.specs.Job.{topology_in, indices_in, answer_out};

use job_outcome::Answer;
use mesh_topology::{Indices, Topology};

// Document 01's number, 0 where the job is done, with the entries taken, the most that waited at once and how often a ray
// grazed a triangle; on a refusal all three are 0.
#[repr(C)]
#[derive(Clone, Copy)]
pub struct SdfJobAnswer {
    pub number: u32,
    pub pops: u32,
    pub peak: usize,
    pub grazed: u64,
}

// Functions and no `From`: neither the number nor what it is read as is a type of this crate.
pub fn topology_in(topology: u32) -> Topology
    ensures { result ≡ topology_in topology }
{
    if topology == 0 {
        return Topology::TriangleList;
    }
    Topology::TriangleStrip
}

pub fn indices_in(given: u32) -> Indices
    ensures { result ≡ indices_in given }
{
    if given == 0 {
        return Indices::None;
    }
    Indices::Given
}

pub fn answer_out(a: Answer) -> SdfJobAnswer
    ensures { result ≡ answer_out (reply_of a) }
{
    match a {
        Ok(t) => SdfJobAnswer {
            number: 0,
            pops: t.pops,
            peak: t.peak,
            grazed: t.grazed,
        },
        Err(refusal) => SdfJobAnswer {
            number: refusal.number(),
            pops: 0,
            peak: 0,
            grazed: 0,
        },
    }
}
