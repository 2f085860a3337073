// Queueing: each cell below f32::MAX becomes one entry, by cell index (document 01, "The run", 2). A part of the
// port: users call `sdf`.
#![tactic(auto)]

ghost use Rattle.std.specs.Prelude.{◌≡◌, ◌≤◌, ◌<◌, max, length};
ghost use Rattle.queue.specs.Keys.{by_keys};
ghost use Rattle.queue.specs.Queue.{Held};
ghost use Rattle.run.specs.Run.{queue_cell};
ghost use Rattle.run_state.specs.Told.{ToldByKeys, Queued, QueuedCells};

use queue::Entry;
use run_state::Progress;

fn higher(a: usize, b: usize) -> usize
    ensures { result ≡ max a b }
{
    if a < b { b } else { a }
}

// Queues e, or refuses by 7 where the room is full.
pub fn enqueue(
    distances: &mut [u32],
    cells: &mut [u32],
    triangles: &mut [u32],
    at: Progress,
    e: Entry,
) -> Progress
    requires { Held by_keys distances.old cells.old triangles.old at.waiting }
    ensures { Queued e distances.old cells.old triangles.old at
        distances.new cells.new triangles.new result }
{
    let n = at.waiting;
    if distances.len() <= n {
        return at.refused(7);
    }
    queue_push::push(distances, cells, triangles, n, e);
    let peak = higher(at.peak, n + 1);
    Progress {
        number: 0,
        waiting: n + 1,
        pops: at.pops,
        peak: peak,
    }
}

// Queues the entry of cell c, where the cell is below f32::MAX.
fn queue_cell(
    field: &[f32],
    names: &[u32],
    distances: &mut [u32],
    cells: &mut [u32],
    triangles: &mut [u32],
    at: Progress,
    c: usize,
) -> Progress
    requires held { Held by_keys distances.old cells.old triangles.old at.waiting }
    requires number_value { (at.number ≡ 0) × (c < length field.now) × (length names.now ≡ length field.now) × (c < 1048576) }
    ensures { ToldByKeys (λ g. queue_cell g c) field.now names.now distances.old
        cells.old triangles.old at field.now names.now
        distances.new cells.new triangles.new result }
{
    let d = field[c];
    if d < 3.4028235e38 {
        let distance = float_order::key_of(d);
        let cell = c as u32;
        let triangle = names[c];
        let e = Entry {
            distance: distance,
            cell: cell,
            triangle: triangle,
        };
        return enqueue(distances, cells, triangles, at, e);
    }
    at
}

// Step 2 of the run: queues the cells that hold a distance, on top of what waits.
pub fn queue_cells(
    field: &[f32],
    names: &[u32],
    distances: &mut [u32],
    cells: &mut [u32],
    triangles: &mut [u32],
    at: Progress,
) -> Progress
    requires held { Held by_keys distances.old cells.old triangles.old at.waiting }
    requires number_value { (at.number ≡ 0) × (length names.now ≡ length field.now) × (length field.now ≤ 1048576) }
    ensures { QueuedCells field.now names.now distances.old cells.old
        triangles.old at distances.new cells.new triangles.new result }
{
    let mut reached = at;
    for c in 0..field.len() {
        reached = queue_cell(field, names, distances, cells, triangles, reached, c);
        if reached.number != 0 {
            return reached;
        }
    }
    reached
}
