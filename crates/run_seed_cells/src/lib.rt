// Seeding's offers: a triangle is offered to a cell, which takes it if it is nearer (document 01, "The run", 1). And
// the loops of seeding, as definitions. A part of the port: users call `sdf`.
#![tactic(auto)]

ghost use Rattle.std.specs.Prelude.{◌≡◌, ◌<◌, length};
ghost use Rattle.float_shortcut.specs.Shown.{signed_root};
ghost use Rattle.lists.specs.Turns.{told};
ghost use Rattle.refusals.specs.Numbers.{refusal_number};
ghost use Rattle.run.specs.Run.{offer_at, nothing_else};
ghost use Rattle.run_seed_cells.specs.Parts.{seed_state};

use refusals::Refusal;

// Offers triangle k, whose signed square is q, to cell c, which takes it if it is nearer than what it holds.
// Refused where the distance is a NaN, which it is where q is.
pub fn offer(field: &mut [f32], names: &mut [u32], c: usize, k: u32, q: f32) -> Result<(), Refusal>
    requires { (c < length field.old) × (c < length names.old) }
    ensures { let s = seed_state field.old names.old in
        let t = seed_state field.new names.new in
        offer_at nothing_else k c (signed_root q) s ≡ told (refusal_number result) t }
{
    let held = field[c];
    if float_shortcut::not_nearer(q, held) {
        return Ok(());
    }
    if q != q {
        return Err(Refusal::NotANumber);
    }
    let d = float_shortcut::signed_root(q);
    if float_order::is_nearer(d, held) {
        field[c] = d;
        names[c] = k;
        return Ok(());
    }
    Ok(())
}
