// A job's text tidied (document 02, §10): what the tidier does with its input, as one function on lent bytes. It is about
// the mesh: no job is refused for its grid or its edition. A part of the port: users run the tidier.
//
//   lines      what went: a line for each merge and each drop
//   patterns   the bits of floats
//   kept       what is kept, as the text of a job
//   whole      a text read, its mesh tidied, and what came of it printed
#![tactic(auto)]

mod kept;
mod lines;
mod patterns;
mod whole;

pub use whole::tidy_text;

// The bytes that must be lent for what is printed, as specs/Tidied.antt has them.
pub const TIDY_ROOM: usize = 65536;

// What a line tells of: a vertex that was merged into its first, a triangle that was dropped for its cause.
#[derive(Clone, Copy)]
pub enum Went {
    Merged,
    Dropped,
}
