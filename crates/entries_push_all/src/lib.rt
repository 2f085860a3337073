// A batch of entries queued in a lent row of entry records. A part of the port: users call `sdf`.
#![tactic(auto)]

ghost use Rattle.std.specs.Prelude.{◌≡◌, ◌<◌};
ghost use Rattle.queue.specs.Keys.{by_keys};
ghost use Rattle.entries.specs.Row.{HeldRow};
ghost use Rattle.entries_state.specs.Records.{QueuedAll};

use entries_batch::Batch;
use queue::Entry;
use run_state::Progress;

// Queues the entries of a batch one after another, or refuses by 7 where the room is full; and then refuses by the
// batch's own number.
pub fn push_all(row: &mut [Entry], at: Progress, b: Batch) -> Progress
    requires { HeldRow by_keys row.old at.waiting × (at.number ≡ 0) × (b.count < 28) }
    ensures { QueuedAll b row.old at row.new result }
{
    let mut reached = at;
    for j in 0..b.count {
        let n = reached.waiting;
        reached = entries_batch::queued(reached, row.len());
        if reached.number != 0 {
            break;
        }
        let e = entries_batch::entry_in(b, j);
        entries_push::push(row, n, e);
    }
    entries_state::stopped(reached, b.number)
}
