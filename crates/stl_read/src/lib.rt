// A scanner's file, binary STL, read (document 02, §1): how many facets it has, and their corners as the vertices of a list
// without indices. A part of the public face `sdf`, which users call.
#![tactic(auto)]

ghost use Rattle.std.specs.Prelude.{◌≡◌, ◌*◌, length};
ghost use Rattle.lists.specs.Checks.{first_that_applies};
ghost use Rattle.refusals.specs.Numbers.{reply_of, refusal_number};
ghost use Rattle.stl.specs.File.{count_in, length_for, corners_in};
ghost use Rattle.stl.specs.Reply.{file_checks, FileGives, counting, reading};

use refusals::Refusal;

// Refuses by the first of 11 and 12 that applies. The count is looked at only where there is one.
fn file_refusal(file: &[u8]) -> Result<(), Refusal>
    ensures { refusal_number result ≡ first_that_applies (file_checks file.now) }
{
    if file.len() < 84 {
        return Err(Refusal::WrongFile);
    }
    let count = stl::word(file, 80);
    if file.len() != 84 + 50 * (count as usize) {
        return Err(Refusal::WrongFile);
    }
    if 131_072 < count {
        return Err(Refusal::TooManyFacets);
    }
    Ok(())
}

// How many facets a file has, so that a caller knows what to lend: nine numbers for each.
pub fn stl_count(file: &[u8]) -> Result<u32, Refusal>
    ensures { reply_of result ≡ counting file.now }
{
    file_refusal(file)?;
    Ok(stl::word(file, 80))
}

// The corners of all facets: each one's record, as it stands in the file, to its nine numbers.
fn read_facets(file: &[u8], vertices: &mut [f32], count: usize)
    requires count_value { count ≡ count_in file.now }
    requires file_len { length file.now ≡ length_for count }
    requires vertices_len { length vertices.old ≡ 9 * count }
    ensures { vertices.new ≡ corners_in file.now }
{
    for k in 0..count {
        let a = 84 + 50 * k;
        let e = a + 50;
        let b = 9 * k;
        let f = b + 9;
        stl::read_facet(&file[a..e], &mut vertices[b..f]);
    }
}

// The corners of a file's facets: corner j of facet k is vertex 3 k + j. Nothing is refused for what a corner is.
pub fn read_stl(file: &[u8], vertices: &mut [f32]) -> Result<u32, Refusal>
    ensures { FileGives (reading file.now vertices.old) result vertices.new }
{
    file_refusal(file)?;
    let count = stl::word(file, 80);
    if vertices.len() != 9 * (count as usize) {
        return Err(Refusal::WrongLength);
    }
    read_facets(file, vertices, count as usize);
    Ok(count)
}
