// What a pop offers and what a cell queues, as a batch of at most 27 entries by value: the field and the names
// are changed first, and whoever has the queue puts the entries in afterwards. Here are the entries of a batch,
// the batch of a cell, and the counts; crate `entries_gather` makes the batch of a pop. A part of the port: users call
// `sdf`.
#![tactic(auto)]

ghost use Rattle.std.specs.Prelude.{◌≡◌, ◌≤◌, ◌<◌, length};
ghost use Rattle.entries_batch.specs.Batch.{entry_in_lem, queued_by, Cell};

use queue::Entry;
use run_state::Progress;

// The entries, in the order in which they are queued: the count of them, their triangle, their cells and the keys
// of their distances. The number is 0, or that of the refusal that was met after the last of them.
#[derive(Clone, Copy)]
pub struct Batch {
    pub number: u32,
    pub count: usize,
    pub triangle: u32,
    pub cells: [u32; 27],
    pub distances: [u32; 27],
}

// Entry j of a batch.
pub fn entry_in(b: Batch, j: usize) -> Entry
    requires { j < 27 }
    ensures { result ≡ entry_in_lem b j }
{
    let cell = b.cells[j];
    let distance = b.distances[j];
    Entry {
        distance: distance,
        cell: cell,
        triangle: b.triangle,
    }
}

// What cell c queues in step 2: one entry where it is below f32::MAX.
pub fn cell_batch(field: &[f32], names: &[u32], c: usize) -> Batch
    requires { (c < length field.now) × (c < length names.now) × (c < 1048576) }
    ensures { Cell field.now names.now c result }
{
    let mut cells = [0u32; 27];
    let mut distances = [0u32; 27];
    let d = field[c];
    if d < 3.4028235e38 {
        cells[0] = c as u32;
        distances[0] = float_order::key_of(d);
        return Batch {
            number: 0,
            count: 1,
            triangle: names[c],
            cells: cells,
            distances: distances,
        };
    }
    Batch {
        number: 0,
        count: 0,
        triangle: 0,
        cells: cells,
        distances: distances,
    }
}

// The counts with one more that waits, or refused by 7 where the room is full.
pub fn queued(at: Progress, room: usize) -> Progress
    requires { at.waiting ≤ room }
    ensures { result ≡ queued_by room at }
{
    if at.waiting < room {
        let n = at.waiting + 1;
        let peak = if at.peak < n { n } else { at.peak };
        return Progress {
            number: 0,
            waiting: n,
            pops: at.pops,
            peak: peak,
        };
    }
    at.refused(7)
}
