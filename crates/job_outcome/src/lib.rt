// What a job comes to (document 01, "Reply numbers"): the answer, and the one outcome as a definition, with its
// laws. A part of the port: users call `sdf`.
#![tactic(auto)]

ghost use Rattle.std.specs.Prelude.{◌≡◌, ◌≤◌, IfErr};
ghost use Rattle.refusals.specs.Numbers.{number_of, reply_of};
ghost use Rattle.job_outcome.specs.Outcome.{reply_told};

use refusals::Refusal;

// What is counted of a job that is done: the entries taken, the most that waited at once, and how often a ray grazed a
// triangle.
#[derive(Clone, Copy)]
pub struct Tally {
    pub pops: u32,
    pub peak: usize,
    pub grazed: u64,
}

// What a job is answered: done, with its counts, or refused.
pub type Answer = Result<Tally, Refusal>;

// The refusal that a run told by its number, which is 6, 7 or 8.
fn met_in_the_run(number: u32) -> Refusal
    requires { (6 ≤ number) × (number ≤ 8) }
    ensures { number_of result ≡ number }
{
    match number {
        6 => Refusal::NotANumber,
        7 => Refusal::QueueFull,
        _ => Refusal::PopsSpent,
    }
}

// The answer of a job from what was told where it was closed: done, or refused by the number of its run. This is the one
// place where that number becomes a kind.
pub fn answer_of(told: Result<Tally, u32>) -> Answer
    requires { IfErr told (λ n. (6 ≤ n) × (n ≤ 8)) }
    ensures { reply_of result ≡ reply_told told }
{
    match told {
        Ok(tally) => Ok(tally),
        Err(number) => Err(met_in_the_run(number)),
    }
}
