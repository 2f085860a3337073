// The lent buffers as a refusal of the run leaves them, and as a run begins: the field all f32::MAX, the
// names all 4,294,967,295, the others zero. A part of the port: users call `sdf`.
#![tactic(auto)]

ghost use Rattle.std.specs.Prelude.{◌≡◌, length, replicate};
ghost use Rattle.float.specs.Arith.{f_max};
ghost use Rattle.job_checks.specs.Job.{lent_of};
ghost use Rattle.job_clear.specs.Cleared.{cleared, ClearedFields};

pub fn fill_field(field: &mut [f32])
    ensures { field.new ≡ replicate (length field.old) f_max }
{
    field.fill(3.4028235e38);
}

// All but the queue.
pub fn clear_fields(field: &mut [f32], names: &mut [u32], crossings: &mut [u32], rows: &mut [u32])
    ensures { ClearedFields field.old field.new names.old crossings.old
        rows.old names.new crossings.new rows.new }
{
    fill_field(field);
    names.fill(4_294_967_295);
    crossings.fill(0);
    rows.fill(0);
}

// All of them.
pub fn clear_all(
    field: &mut [f32],
    names: &mut [u32],
    crossings: &mut [u32],
    rows: &mut [u32],
    distances: &mut [u32],
    cells: &mut [u32],
    triangles: &mut [u32],
)
    ensures { let lent = lent_of field.old names.old crossings.old rows.old
        distances.old cells.old triangles.old in
        let left = lent_of field.new names.new crossings.new rows.new
        distances.new cells.new triangles.new in
        left ≡ cleared lent }
{
    clear_fields(field, names, crossings, rows);
    queue::clear(distances, cells, triangles);
}
