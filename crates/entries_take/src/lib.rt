// The first entry taken out of the queue of the run that is a lent row of entry records. A part of the port:
// users call `sdf`.
#![tactic(auto)]

ghost use Rattle.std.specs.Prelude.{◌<◌};
ghost use Rattle.queue.specs.Order.{order_of};
ghost use Rattle.queue.specs.Keys.{by_keys, Apart};
ghost use Rattle.entries.specs.Row.{waiting_in, HeldRow, TakenRow};

use mesh_topology::{Indices, Topology};
use queue::Entry;

// Takes the first of the n entries that wait, and leaves zero in the room that this frees. No two of them may agree in
// distance and cell: then the first by these two keys is the first by all three. The mesh stands in the promise alone, and
// no triple of vertex numbers is read.
pub fn take(
    row: &mut [Entry],
    n: usize,
    topology: Topology,
    given: Indices,
    indices: &[u32],
    vertices: usize,
) -> Entry
    requires { let le = order_of topology given indices.now vertices in
        HeldRow by_keys row.old n × (0 < n) × Apart (waiting_in le row.old n) }
    ensures { TakenRow (order_of topology given indices.now vertices) result row.old row.new n }
{
    let m = n - 1;
    let r = row[0];
    let last = row[m];
    let e = entries::kept(last, m);
    row[m] = entries::none();
    entries_sift::sift_down(row, m, e);
    r
}
