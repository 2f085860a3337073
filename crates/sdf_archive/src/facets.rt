// Which cells a facet serves, for C: the calls of `sdf_c::facets`.
ghost use Rattle.facet_index.specs.Index.{index_of};
ghost use Rattle.facet_index.specs.Refusals.{Builds, Updates};

#[unsafe(no_mangle)]
pub extern "C" fn sdf_index_build(
    triangles: u32,
    names: &[u32],
    starts: &mut [u32],
    list: &mut [u32],
) -> u32
    ensures { let lent = index_of starts.old list.old in
        let left = index_of starts.new list.new in
        Builds triangles names.now lent result left }
{
    sdf_c::facets::sdf_index_build(triangles, names, starts, list)
}

#[unsafe(no_mangle)]
pub extern "C" fn sdf_index_update(
    triangles: u32,
    old: &[u32],
    names: &[u32],
    starts: &mut [u32],
    list: &mut [u32],
) -> u32
    ensures { let lent = index_of starts.old list.old in
        let left = index_of starts.new list.new in
        Updates triangles old.now names.now lent result left }
{
    sdf_c::facets::sdf_index_update(triangles, old, names, starts, list)
}
