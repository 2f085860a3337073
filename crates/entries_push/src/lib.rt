// An entry put into the queue of the run that is a lent row of entry records. A part of the port: users call
// `sdf`.
#![tactic(auto)]

ghost use Rattle.std.specs.Prelude.{◌<◌, length};
ghost use Rattle.queue.specs.Keys.{by_keys};
ghost use Rattle.entries.specs.Row.{HeldRow, PushedRow};

use queue::Entry;

// Adds e to the n entries that wait. There must be room for it.
pub fn push(row: &mut [Entry], n: usize, e: Entry)
    requires { HeldRow by_keys row.old n × (n < length row.old) }
    ensures { PushedRow by_keys e row.old row.new n }
{
    let mut i = n;
    while 0 < i {
        let p = (i - 1) / 2;
        let x = row[p];
        if queue::goes_first(x, e) {
            break;
        }
        row[i] = x;
        i = p;
    }
    row[i] = e;
}
