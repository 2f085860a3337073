// Whether an index of cells by facet is that of the names (document 02, §12; where it is not, refusal 18), with no scratch and
// nothing changed. Under each triangle stand cells that name it, in order; and if there are as many places as cells that
// name a triangle, they are all of them. A part of the port: users call `sdf`.
#![tactic(auto)]

ghost use Rattle.std.specs.Prelude.{◌≡◌, ℕ, ◌+◌, ◌-◌, ◌≤◌, ◌<◌, length, get_or};
ghost use Rattle.picks.specs.Picks.{Rising};
ghost use Rattle.run.specs.Run.{none};
ghost use Rattle.facet_index.specs.Index.{index_of, names_it, IsIndex};
ghost use Rattle.facet_index.specs.Places.{before, Orderly};
ghost use Rattle.facet_index.specs.Told.{Tells};

// Whether the cells from place `from` to before `to` name this triangle, in order.
fn is_row(facet: u32, names: &[u32], list: &[u32], from: usize, to: usize) -> bool
    requires from_le_to { from ≤ to }
    requires to_in_bounds { to ≤ length list.now }
    ensures { let cells : ℕ → ℕ = λ j. get_or list.now (from + j) 0 in
        Tells result (Rising (names_it names.now facet) (length names.now) (to - from) cells) }
{
    // the cells that have come are below this
    let mut least: usize = 0;
    for p in from..to {
        let cell = list[p] as usize;
        if cell < least {
            return false;
        }
        if names.len() <= cell {
            return false;
        }
        if names[cell] != facet {
            return false;
        }
        least = cell + 1;
    }
    true
}

// Whether the cells under each triangle are such a row.
fn all_orderly(triangles: u32, names: &[u32], starts: &[u32], list: &[u32]) -> bool
    requires { length starts.now ≡ triangles + 1 }
    ensures { let i = index_of starts.now list.now in
        Tells result ((k : ℕ) → k < triangles → Orderly names.now i k) }
{
    for facet in 0..triangles {
        let k = facet as usize;
        let from = starts[k] as usize;
        let to = starts[k + 1] as usize;
        if to < from {
            return false;
        }
        if list.len() < to {
            return false;
        }
        if !is_row(facet, names, list, from, to) {
            return false;
        }
    }
    true
}

// How many cells name a triangle.
fn count_named(triangles: u32, names: &[u32]) -> usize
    ensures { result ≡ before names.now triangles }
{
    let mut n: usize = 0;
    for name in names {
        if *name < triangles {
            n += 1;
        }
    }
    n
}

// Whether the list has none from place `end` on.
fn is_tail(list: &[u32], end: usize) -> bool
    ensures { Tells result ((p : ℕ) → end ≤ p → p < length list.now → get_or list.now p 0 ≡ none) }
{
    for p in end..list.len() {
        if list[p] != 4_294_967_295 {
            return false;
        }
    }
    true
}

// Whether starts and list are the index of the names.
pub fn is_index(triangles: u32, names: &[u32], starts: &[u32], list: &[u32]) -> bool
    requires starts_len { length starts.now ≡ triangles + 1 }
    requires list_len { length list.now ≡ length names.now }
    ensures { Tells result (IsIndex triangles names.now (index_of starts.now list.now)) }
{
    if starts[0] != 0 {
        return false;
    }
    let t = triangles as usize;
    let end = starts[t] as usize;
    if end != count_named(triangles, names) {
        return false;
    }
    if !all_orderly(triangles, names, starts, list) {
        return false;
    }
    is_tail(list, end)
}
