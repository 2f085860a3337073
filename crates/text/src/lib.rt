// The job's text (document 01, "One job, one listing"): what its bytes are, as definitions, a reader of it
// as a function on lists, and the laws by which that reader takes exactly the texts of jobs within the
// limits. The only code here are the program's limits and the records that are handed over. A part of the
// port: users run the job program and the converter.
#![tactic(auto)]

ghost use Rattle.std.specs.Prelude.{◌≡◌};
ghost use Rattle.text.specs.Limits.{most_indices};

use mesh_topology::Topology;
use point::Axis;
use terms::SignMethod;

// The job program's own limits, as specs/Limits.antt has them; indices by their topology.
pub const MOST_VERTICES: u32 = 256;

// Three for each triangle of the longest strip: 3 · (768 − 2).
const MOST_LIST_INDICES: u32 = 2298;

const MOST_STRIP_INDICES: u32 = 768;

pub const MOST_CELLS: usize = 512;

pub const MOST_ENTRIES: u32 = 2048;

pub fn most_indices(topology: Topology) -> u32
    ensures { result ≡ most_indices topology }
{
    match topology {
        Topology::TriangleList => MOST_LIST_INDICES,
        Topology::TriangleStrip => MOST_STRIP_INDICES,
    }
}

// Buffers that hold what is within the limits: the coordinates, the indices of either topology, the crossings of
// all cells, the entries, the bytes of a listing, and those of a text.
pub const COORDINATE_ROOM: usize = 3 * MOST_VERTICES as usize;

pub const INDEX_ROOM: usize = MOST_LIST_INDICES as usize;

pub const CROSSING_ROOM: usize = 3 * MOST_CELLS;

pub const ENTRY_ROOM: usize = MOST_ENTRIES as usize;

pub const LISTING_ROOM: usize = 32768;

pub const TEXT_ROOM: usize = 40960;

// How a number is written: in decimal, or as eight hex digits.
#[derive(Clone, Copy)]
pub enum Form {
    Decimal,
    Hex8,
}

// Three numbers of one line: counts, or the bit patterns of three floats.
#[derive(Clone, Copy)]
pub struct Three {
    pub x: u32,
    pub y: u32,
    pub z: u32,
}

// The lines before the vertices. The lines of the upright axis and of the signs' method may be left out. Of the
// upright axis that means z, and that nothing was said is kept, since a text with the line `upright=z` is another text
// of the same job; of the method it is how Raycast is said.
#[derive(Clone, Copy)]
pub struct Head {
    pub count: Three,
    pub first: Three,
    pub size: Three,
    pub upright: Option<Axis>,
    pub topology: Topology,
    pub sign: SignMethod,
}

// The lines after the indices: the queue room, the pop limit, and the edition of the layer table, whose line may be left
// out. That means 1, and that nothing was said is kept, since a text with the line `table=1` is another text of the
// same job. Any number may be said: whether there is such an edition is asked where the job is checked.
#[derive(Clone, Copy)]
pub struct Tail {
    pub room: u32,
    pub limit: u32,
    pub table: Option<u32>,
}
