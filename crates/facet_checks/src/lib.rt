// The refusals of an index of cells by facet that look at numbers and names alone (document 02, §12): 3, 15 and 4, of a build
// and of an update. A part of the port: users call `sdf`.
#![tactic(auto)]

ghost use Rattle.std.specs.Prelude.{◌≡◌};
ghost use Rattle.lists.specs.Checks.{first_that_applies};
ghost use Rattle.refusals.specs.Numbers.{refusal_number};
ghost use Rattle.facet_index.specs.Index.{index_of};
ghost use Rattle.facet_index.specs.Refusals.{known, wrong_lengths, unknown_name, in_order, build_checks, early_checks};

use refusals::Refusal;

// Whether a name is that of a triangle, or none.
fn is_known(triangles: u32, name: u32) -> bool
    ensures { result ≡ known triangles name }
{
    (name < triangles) | (name == 4_294_967_295)
}

// 4: a name that is neither. Every name is looked at, so that the loop has no way out and can be taken several names at once.
fn unknown_name(triangles: u32, names: &[u32]) -> bool
    ensures { result ≡ unknown_name triangles names.now }
{
    let mut unknown = false;
    for name in names {
        unknown |= !is_known(triangles, *name);
    }
    unknown
}

// 15: starts or list of a wrong length, or too many names.
fn wrong_lengths(triangles: u32, names: usize, starts: usize, list: usize) -> bool
    ensures { result ≡ wrong_lengths triangles names starts list }
{
    (starts != triangles as usize + 1) | (1_048_576 < names) | (list != names)
}

// The first of 3, 15 and 4 that applies; whether a length is wrong and a name unknown is told.
fn first_refusal(triangles: u32, lengths: bool, name: bool) -> Result<(), Refusal>
    ensures { refusal_number result ≡ first_that_applies (in_order triangles lengths name) }
{
    if 131_072 < triangles {
        return Err(Refusal::TooManyTriangles);
    }
    if lengths {
        return Err(Refusal::WrongIndexLength);
    }
    if name {
        return Err(Refusal::NoSuchIndex);
    }
    Ok(())
}

// Of a build.
pub fn build_refusal(
    triangles: u32,
    names: &[u32],
    starts: &[u32],
    list: &[u32],
) -> Result<(), Refusal>
    ensures { let lent = index_of starts.now list.now in
        refusal_number result ≡ first_that_applies (build_checks triangles names.now lent) }
{
    let lengths = wrong_lengths(triangles, names.len(), starts.len(), list.len());
    let name = unknown_name(triangles, names);
    first_refusal(triangles, lengths, name)
}

// Of an update, but for 18.
pub fn update_refusal(
    triangles: u32,
    old: &[u32],
    names: &[u32],
    starts: &[u32],
    list: &[u32],
) -> Result<(), Refusal>
    ensures { let lent = index_of starts.now list.now in
        refusal_number result ≡ first_that_applies (early_checks triangles old.now names.now lent) }
{
    let lengths = wrong_lengths(triangles, names.len(), starts.len(), list.len());
    let others = old.len() != names.len();
    let old_name = unknown_name(triangles, old);
    let name = unknown_name(triangles, names);
    first_refusal(triangles, lengths | others, old_name | name)
}
