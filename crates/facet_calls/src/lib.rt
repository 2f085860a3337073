// Which cells does this facet serve (document 02, §12): an index beside the field, in two lent slices. It is built from a
// field's names, brought up to date when they change, and asked for the cells that name a facet. A part of the public
// face `sdf`, which users call.
#![tactic(auto)]

ghost use Rattle.refusals.specs.Numbers.{refusal_number};
ghost use Rattle.facet_index.specs.Index.{index_of};
ghost use Rattle.facet_index.specs.Refusals.{Builds, Updates};
ghost use Rattle.facet_index.specs.Asked.{Answers};

use refusals::Refusal;

// The index of the names of a field's cells. `starts` has a start for each triangle and one end, `list` is as long as
// the names: the cells that name triangle k stand from place starts[k] to before starts[k + 1], ascending, and behind the
// last of them stands none, 4,294,967,295. On a refusal, by 3, 15 or 4, nothing is changed.
pub fn index_build(
    triangles: u32,
    names: &[u32],
    starts: &mut [u32],
    list: &mut [u32],
) -> Result<(), Refusal>
    ensures { let lent = index_of starts.old list.old in
        let left = index_of starts.new list.new in
        Builds triangles names.now lent (refusal_number result) left }
{
    facet_checks::build_refusal(triangles, names, starts, list)?;
    facet_build::index_names(triangles, names, starts, list);
    Ok(())
}

// The index of the old names becomes that of the new ones: what a fresh build from these gives. On a refusal, by 3, 15, 4 or
// 18, nothing is changed. It is that build, after the checks: nothing is promised about how little is done where little
// has changed.
pub fn index_update(
    triangles: u32,
    old: &[u32],
    names: &[u32],
    starts: &mut [u32],
    list: &mut [u32],
) -> Result<(), Refusal>
    ensures { let lent = index_of starts.old list.old in
        let left = index_of starts.new list.new in
        Updates triangles old.now names.now lent (refusal_number result) left }
{
    facet_checks::update_refusal(triangles, old, names, starts, list)?;
    if !facet_stale::is_index(triangles, old, starts, list) {
        return Err(Refusal::StaleIndex);
    }
    facet_build::index_names(triangles, names, starts, list);
    Ok(())
}

// The cells that name a facet, ascending: a part of the lent list. Where the starts have no such facet, or the list no such
// part, there are none.
pub fn facet_cells<'a>(facet: u32, starts: &[u32], list: &'a [u32]) -> &'a [u32]
    ensures { Answers facet (index_of starts.now list.now) result.now }
{
    let k = facet as usize;
    if starts.len() <= k + 1 {
        return &list[..0];
    }
    let from = starts[k] as usize;
    let to = starts[k + 1] as usize;
    if to < from {
        return &list[..0];
    }
    if list.len() < to {
        return &list[..0];
    }
    &list[from..to]
}
