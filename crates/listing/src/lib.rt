// The listing that a job is answered with (document 01, "One job, one listing"): what a text asks for and what the
// job program prints, as definitions, the functions that take a text's numbers as the port does, and those that
// write the lines of its cells and layers into lent bytes; the whole is written by `listing_whole`. A part of the
// port: users run the job program.
#![tactic(auto)]

mod asked;
mod cells;
mod floats;

pub use asked::{cells_of, grid_of, rows_of, terms_of};
pub use cells::{put_cells, put_rows};
pub use floats::{coordinate_floats, fill};
