// Offers: the triangle of an entry that was taken is offered to the cells around its cell, and a cell that finds
// it nearer takes it and queues an entry (document 01, "The run", 3). A part of the port: users call `sdf`.
#![tactic(auto)]

ghost use Rattle.std.specs.Prelude.{◌≡◌, ◌<◌, length};
ghost use Rattle.float_shortcut.specs.Shown.{signed_root};
ghost use Rattle.queue.specs.Keys.{by_keys};
ghost use Rattle.queue.specs.Queue.{Held};
ghost use Rattle.run.specs.Run.{queue, offer_at};
ghost use Rattle.run_around.specs.Around.{place_of, offer_place, offer_all, Passable, PlacesFit};
ghost use Rattle.run_state.specs.Told.{ToldByKeys};

use queue::Entry;
use run_state::Progress;

// Offers triangle k, whose signed square is q, to cell c. Where q shows that the distance is not nearer than
// what the cell holds, no root is worked out.
fn offer(
    field: &mut [f32],
    names: &mut [u32],
    distances: &mut [u32],
    cells: &mut [u32],
    triangles: &mut [u32],
    at: Progress,
    k: u32,
    c: u32,
    q: f32,
) -> Progress
    requires held { Held by_keys distances.old cells.old triangles.old at.waiting }
    requires number_value { (at.number ≡ 0) × (c < length field.old) × (length names.old ≡ length field.old) }
    ensures { ToldByKeys (λ g. offer_at (queue g) k c (signed_root q))
        field.old names.old distances.old cells.old triangles.old at
        field.new names.new distances.new cells.new triangles.new result }
{
    let i = c as usize;
    let held = field[i];
    if float_shortcut::not_nearer(q, held) {
        return at;
    }
    if q != q {
        return at.refused(6);
    }
    let d = float_shortcut::signed_root(q);
    if float_order::is_nearer(d, held) {
        field[i] = d;
        names[i] = k;
        let distance = float_order::key_of(d);
        let e = Entry {
            distance: distance,
            cell: c,
            triangle: k,
        };
        return run_queue::enqueue(distances, cells, triangles, at, e);
    }
    at
}

// Offers triangle k to where a step leads, unless that is nowhere.
fn offer_to(
    field: &mut [f32],
    names: &mut [u32],
    distances: &mut [u32],
    cells: &mut [u32],
    triangles: &mut [u32],
    at: Progress,
    k: u32,
    to: u32,
    q: f32,
) -> Progress
    requires held { Held by_keys distances.old cells.old triangles.old at.waiting }
    requires number_value { (at.number ≡ 0) × Passable to field.old names.old }
    ensures { ToldByKeys (λ g. offer_place (queue g) k (place_of to) (signed_root q))
        field.old names.old distances.old cells.old triangles.old at
        field.new names.new distances.new cells.new triangles.new result }
{
    if to == run_around::NOWHERE {
        return at;
    }
    offer(field, names, distances, cells, triangles, at, k, to, q)
}

// Offers triangle k to where the steps of the table lead, in its order.
pub fn offer_around(
    field: &mut [f32],
    names: &mut [u32],
    distances: &mut [u32],
    cells: &mut [u32],
    triangles: &mut [u32],
    at: Progress,
    k: u32,
    to: &[u32],
    squares: &[f32],
) -> Progress
    requires held { Held by_keys distances.old cells.old triangles.old at.waiting }
    requires number_value { (at.number ≡ 0) × PlacesFit to.now squares.now field.old names.old }
    ensures { ToldByKeys (λ g. offer_all (queue g) k to.now squares.now)
        field.old names.old distances.old cells.old triangles.old at
        field.new names.new distances.new cells.new triangles.new result }
{
    let mut reached = at;
    for j in 0..27 {
        reached = offer_to(
            field, names, distances, cells, triangles, reached, k, to[j], squares[j],
        );
        if reached.number != 0 {
            return reached;
        }
    }
    reached
}
