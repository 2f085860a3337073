// The run over a lent row of entry records (document 01, "Choosing the form by place"): queueing and spreading as in
// crates `run_queue` and `run_spread`, with the same definitions for promises. Offers are made over the field and the
// names alone, as a batch; the batch is queued afterwards. Here are its counts; `entries_push_all` queues a batch,
// `entries_queue` the cells, and `entries_spread` spreads. A part of the port: users call `sdf`.
#![tactic(auto)]

ghost use Rattle.std.specs.Prelude.{◌≡◌, ◌≤◌, ◌<◌};
ghost use Rattle.entries_state.specs.Records.{stopped_by, popped_by};

use run_state::Progress;
use terms::Terms;

// The counts where a batch says that the run is refused after its entries.
pub fn stopped(at: Progress, number: u32) -> Progress
    ensures { result ≡ stopped_by number at }
{
    if at.number != 0 {
        return at;
    }
    at.refused(number)
}

// The counts with one more taken, or refused by 8 where the pops are spent.
pub fn popped(at: Progress, terms: Terms) -> Progress
    requires { (0 < at.waiting) × (at.pops ≤ terms.limit) }
    ensures { result ≡ popped_by terms.limit at }
{
    if at.pops == terms.limit {
        return at.refused(8);
    }
    let left = at.waiting - 1;
    let pops = at.pops + 1;
    Progress {
        number: 0,
        waiting: left,
        pops: pops,
        peak: at.peak,
    }
}
