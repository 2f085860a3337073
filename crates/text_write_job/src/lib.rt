// The writer of the job's text (document 01, "One job, one listing"): a job that a record and two slices
// hold is written as the one text that the reader reads as it. A part of the port: users run the
// converter.
#![tactic(auto)]

mod parts;
mod whole;

pub use whole::{put_job, write_job};
