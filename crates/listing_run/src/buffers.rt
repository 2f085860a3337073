// A job that was read: run over buffers of its size, and listed.
ghost use Rattle.std.specs.Prelude.{◌≤◌, length, ◌≡◌};
ghost use Rattle.job_checks.specs.Job.{lent_of};
ghost use Rattle.text.specs.Limits.{most_cells, most_entries, crossing_room};
ghost use Rattle.lists.specs.Put.{Put};
ghost use Rattle.refusals.specs.Numbers.{reply_of};
ghost use Rattle.float_bits.specs.Patterns.{floats_of};
ghost use Rattle.listing.specs.Listing.{lent_by, lent_for, listed};
ghost use Rattle.listing.specs.Written.{RoomToList, Listable, shown};
ghost use Rattle.entries_own.specs.Own.{lent_own};
ghost use Rattle.listing_run.specs.Parts.{listed_of, held_job, Small, Sizes};

use entries_own::run_records;
use job_generate::generate_grid_sdf;
use job_outcome::Answer;
use listing::{cells_of, coordinate_floats, fill, grid_of, rows_of, terms_of};
use listing_whole::write_listing;
use mesh::Mesh;
use terms::{Pass, Terms};
use text::{CROSSING_ROOM, ENTRY_ROOM, MOST_CELLS};
use text_read_job::Asked;

// Lists an answer and what its job left, which can be written.
fn put_listing(answer: Answer, field: &[f32], names: &[u32], rows: &[u32], out: &mut [u8]) -> usize
    requires { Listable (reply_of answer) field.now names.now rows.now out.old }
    ensures { let left = shown field.now names.now rows.now in
        Put out.old 0 (listed (reply_of answer) left) out.new result }
{
    let written = write_listing(answer, field, names, rows, out);
    match written {
        Some(n) => n,
        None => 0,
    }
}

// Runs the job over the lent buffers, and lists what it came to.
fn list_outcome(
    asked: Asked,
    vertices: &[f32],
    indices: &[u32],
    field: &mut [f32],
    names: &mut [u32],
    crossings: &mut [u32],
    rows: &mut [u32],
    distances: &mut [u32],
    cells: &mut [u32],
    triangles: &mut [u32],
    pass: Pass,
    out: &mut [u8],
) -> usize
    requires room_to_list { RoomToList field.old names.old rows.old out.old }
    requires distances_len_bound { length distances.old ≤ most_entries }
    ensures { let job = held_job asked vertices.now indices.now in
        let lent = lent_of field.old names.old crossings.old rows.old in
        let entries = lent distances.old cells.old triangles.old in
        Put out.old 0 (listed_of job entries) out.new result }
{
    let head = asked.head;
    let tail = asked.tail;
    let terms: Terms = terms_of(head, tail, pass);
    let grid = grid_of(head);
    let mesh = Mesh {
        vertices,
        topology: head.topology,
        given: asked.given,
        indices,
    };
    let answer = generate_grid_sdf(
        grid, mesh, field, names, crossings, rows, distances, cells, triangles, terms,
    );
    put_listing(answer, field, names, rows, out)
}

// The same over a row of records, with room for so many entries.
fn list_records(
    asked: Asked,
    vertices: &[f32],
    indices: &[u32],
    field: &mut [f32],
    names: &mut [u32],
    crossings: &mut [u32],
    rows: &mut [u32],
    room: usize,
    pass: Pass,
    out: &mut [u8],
) -> usize
    requires room_to_list { RoomToList field.old names.old rows.old out.old }
    requires room_le_most_entries { room ≤ most_entries }
    ensures { let job = held_job asked vertices.now indices.now in
        let lent = lent_own field.old names.old crossings.old rows.old room in
        Put out.old 0 (listed_of job lent) out.new result }
{
    let head = asked.head;
    let tail = asked.tail;
    let terms: Terms = terms_of(head, tail, pass);
    let grid = grid_of(head);
    let mesh = Mesh {
        vertices,
        topology: head.topology,
        given: asked.given,
        indices,
    };
    let answer = run_records(grid, mesh, field, names, crossings, rows, room, terms);
    put_listing(answer, field, names, rows, out)
}

// Buffers for as many cells and entries as the program takes. That they are zero is said of their lengths alone,
// since nothing depends on what they hold.

fn cell_floats() -> [f32; MOST_CELLS]
    ensures { most_cells ≡ length result }
{
    [0.0; MOST_CELLS]
}

fn cell_words() -> [u32; MOST_CELLS]
    ensures { most_cells ≡ length result }
{
    [0; MOST_CELLS]
}

fn crossing_words() -> [u32; CROSSING_ROOM]
    ensures { crossing_room ≡ length result }
{
    [0; CROSSING_ROOM]
}

fn entry_words() -> [u32; ENTRY_ROOM]
    ensures { most_entries ≡ length result }
{
    [0; ENTRY_ROOM]
}

// The same over buffers of its own: so many cells, layers and entries, which are in a row of records or in three
// buffers, and by either pass. What is listed is the same.
fn list_run(
    asked: Asked,
    vertices: &[f32],
    indices: &[u32],
    total: usize,
    layers: usize,
    room: usize,
    records: bool,
    pass: Pass,
    out: &mut [u8],
) -> usize
    requires { Sizes total layers room out.old }
    ensures { let job = held_job asked vertices.now indices.now in
        Put out.old 0 (listed_of job (lent_by total layers room)) out.new result }
{
    let mut field_room = cell_floats();
    let mut names_room = cell_words();
    let mut crossings_room = crossing_words();
    let mut rows_room = cell_words();
    let counts = 3 * total;
    let field = &mut field_room[..total];
    let names = &mut names_room[..total];
    let crossings = &mut crossings_room[..counts];
    let rows = &mut rows_room[..layers];
    if records {
        return list_records(
            asked, vertices, indices, field, names, crossings, rows, room, pass, out,
        );
    }
    let mut distances = entry_words();
    let mut cells = entry_words();
    let mut triangles = entry_words();
    list_outcome(
        asked,
        vertices,
        indices,
        field,
        names,
        crossings,
        rows,
        &mut distances[..room],
        &mut cells[..room],
        &mut triangles[..room],
        pass,
        out,
    )
}

// Answers a job within the program's limits, of these coordinates' bits and indices, over a row of records or over
// three buffers, by either pass.
pub fn answer_job(
    asked: Asked,
    bits: &[u32],
    indices: &[u32],
    records: bool,
    pass: Pass,
    out: &mut [u8],
) -> usize
    requires { Small asked bits.now out.old }
    ensures { let job = held_job asked (floats_of bits.now) indices.now in
        Put out.old 0 (listed_of job (lent_for asked.head asked.tail)) out.new result }
{
    let head = asked.head;
    let count = head.count;
    let tail = asked.tail;
    let total = cells_of(count);
    let layers = rows_of(head);
    let entries = tail.room as usize;
    let mut floats = coordinate_floats();
    let n = bits.len();
    fill(bits, &mut floats[..n]);
    list_run(
        asked,
        &floats[..n],
        indices,
        total,
        layers,
        entries,
        records,
        pass,
        out,
    )
}
