// A scanner's file, binary STL, written (document 02, §1): header, normals and attributes zero, so that what is read
// from it are the corners that were lent, bit for bit. A part of the public face `sdf`, which users call.
#![tactic(auto)]

ghost use Rattle.std.specs.Prelude.{◌≡◌, ◌*◌, ◌≤◌, length};
ghost use Rattle.lists.specs.Checks.{first_that_applies};
ghost use Rattle.lists.specs.Joined.{joined};
ghost use Rattle.lists.specs.Put.{Put};
ghost use Rattle.refusals.specs.Numbers.{refusal_number};
ghost use Rattle.float_bits.specs.Patterns.{bits_of};
ghost use Rattle.stl.specs.File.{length_for, head_of, record_of, nine_at};
ghost use Rattle.stl.specs.Reply.{writing_checks, FileGives, writing};

use refusals::Refusal;

// Refuses by the first of 2, 12 and 5 that applies.
fn writing_refusal(numbers: usize, bytes: usize) -> Result<(), Refusal>
    ensures { refusal_number result ≡ first_that_applies (writing_checks numbers bytes) }
{
    if numbers % 9 != 0 {
        return Err(Refusal::WrongVertices);
    }
    let facets = numbers / 9;
    if 131_072 < facets {
        return Err(Refusal::TooManyFacets);
    }
    if bytes != 84 + 50 * facets {
        return Err(Refusal::WrongLength);
    }
    Ok(())
}

// The header, 80 bytes of zero, and the count.
fn write_head(file: &mut [u8], count: u32)
    requires { 84 ≤ length file.old }
    ensures { Put file.old 0 (head_of count) file.new 84 }
{
    for i in 0..20 {
        stl::put_word(file, 4 * i, 0);
    }
    stl::put_word(file, 80, count);
}

// The records of all facets: the nine numbers of each to its 50 bytes, in their place in the file.
fn write_facets(vertices: &[f32], file: &mut [u8], count: usize)
    requires vertices_len { length vertices.now ≡ 9 * count }
    requires file_len { length file.old ≡ length_for count }
    ensures { let records = joined (λ k. record_of (bits_of (nine_at vertices.now k))) count in
        Put file.old 84 records file.new (length_for count) }
{
    for k in 0..count {
        let b = 9 * k;
        let f = b + 9;
        let a = 84 + 50 * k;
        let e = a + 50;
        stl::write_facet(&vertices[b..f], &mut file[a..e]);
    }
}

// The file of a list of corners, nine numbers for each facet.
pub fn write_stl(vertices: &[f32], file: &mut [u8]) -> Result<u32, Refusal>
    ensures { FileGives (writing vertices.now file.old) result file.new }
{
    writing_refusal(vertices.len(), file.len())?;
    let count = vertices.len() / 9;
    write_head(file, count as u32);
    write_facets(vertices, file, count);
    Ok(count as u32)
}
