// An offer of a pop, made over the field and the names alone. A part of the port: users call `sdf`.
#![tactic(auto)]

ghost use Rattle.run_around.specs.Around.{Passable};
ghost use Rattle.entries_consider.specs.Considered.{Considered};

use refusals::Refusal;

// Where a triangle's signed square is no NaN and the distance is nearer than what the cell holds, the cell takes it, and the key of the
// distance is told.
pub fn consider(
    field: &mut [f32],
    names: &mut [u32],
    k: u32,
    to: u32,
    q: f32,
) -> Result<Option<u32>, Refusal>
    requires { Passable to field.old names.old }
    ensures { Considered k to q field.old names.old field.new names.new result }
{
    if to == run_around::NOWHERE {
        return Ok(None);
    }
    let i = to as usize;
    let held = field[i];
    if float_shortcut::not_nearer(q, held) {
        return Ok(None);
    }
    if q != q {
        return Err(Refusal::NotANumber);
    }
    let d = float_shortcut::signed_root(q);
    if float_order::is_nearer(d, held) {
        field[i] = d;
        names[i] = k;
        return Ok(Some(float_order::key_of(d)));
    }
    Ok(None)
}
