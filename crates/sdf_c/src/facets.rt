// Which cells does this facet serve, for C: `sdf::index_build` and `sdf::index_update`. A slice is two parameters in C, a pointer and a
// count. The cells of facet k are, in C, those from list + starts[k] to before list + starts[k + 1].
ghost use Rattle.std.specs.Prelude.{◌≡◌};
ghost use Rattle.refusals.specs.Numbers.{refusal_number};
ghost use Rattle.facet_index.specs.Index.{index_of};
ghost use Rattle.facet_index.specs.Refusals.{Builds, Updates};

use refusals::Refusal;

// The number that C gets: 0 where nothing is refused, and else that of the refusal.
fn number_in(answer: Result<(), Refusal>) -> u32
    ensures { result ≡ refusal_number answer }
{
    match answer {
        Ok(()) => 0,
        Err(refusal) => refusal.number(),
    }
}

pub fn sdf_index_build(triangles: u32, names: &[u32], starts: &mut [u32], list: &mut [u32]) -> u32
    ensures { let lent = index_of starts.old list.old in
        let left = index_of starts.new list.new in
        Builds triangles names.now lent result left }
{
    number_in(sdf::index_build(triangles, names, starts, list))
}

pub fn sdf_index_update(
    triangles: u32,
    old: &[u32],
    names: &[u32],
    starts: &mut [u32],
    list: &mut [u32],
) -> u32
    ensures { let lent = index_of starts.old list.old in
        let left = index_of starts.new list.new in
        Updates triangles old.now names.now lent result left }
{
    number_in(sdf::index_update(triangles, old, names, starts, list))
}
