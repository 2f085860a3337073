// The cells that hold a distance, queued in a lent row of entry records. A part of the port: users call `sdf`.
#![tactic(auto)]

ghost use Rattle.std.specs.Prelude.{◌≡◌, ◌≤◌, length};
ghost use Rattle.queue.specs.Keys.{by_keys};
ghost use Rattle.entries.specs.Row.{HeldRow};
ghost use Rattle.entries_state.specs.Records.{QueuedCellsRow};

use queue::Entry;
use run_state::Progress;

// Step 2 of the run: queues the cells that hold a distance, on top of what waits.
pub fn queue_cells(field: &[f32], names: &[u32], row: &mut [Entry], at: Progress) -> Progress
    requires { HeldRow by_keys row.old at.waiting × (at.number ≡ 0) × (length names.now ≡ length field.now) ×
        (length field.now ≤ 1048576) }
    ensures { QueuedCellsRow field.now names.now row.old at row.new result }
{
    let mut reached = at;
    for c in 0..field.len() {
        let b = entries_batch::cell_batch(field, names, c);
        reached = entries_push_all::push_all(row, reached, b);
        if reached.number != 0 {
            break;
        }
    }
    reached
}
