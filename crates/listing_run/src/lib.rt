// A job that was read: run over buffers of its size, and listed. A part of the port: users run the job
// program.
#![tactic(auto)]

mod buffers;

pub use buffers::answer_job;
