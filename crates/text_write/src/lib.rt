// Text written into lent bytes: each function writes at a place and answers the place after what it wrote.
// A part of the port: users run the job program.
#![tactic(auto)]

mod bytes;
mod lines;
mod numbers;

pub use bytes::{put, put_all};
pub use lines::{put_long_number, put_number, put_three, put_two};
pub use numbers::put_value_then;
