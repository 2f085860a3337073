// What reading and writing a scanner's file give for C beside slices: the answer.
#![tactic(auto)]

ghost use Rattle.std.specs.Prelude.{◌≡◌};
ghost use Rattle.refusals.specs.Numbers.{reply_of};
ghost use Rattle.c_stl.specs.Stl.{stl_out};

use refusals::Refusal;

// Document 02's number, 0 where nothing is refused, with the facets that were found, read or written; on a refusal 0.
#[repr(C)]
#[derive(Clone, Copy)]
pub struct SdfStlAnswer {
    pub number: u32,
    pub facets: u32,
}

pub fn stl_out(a: Result<u32, Refusal>) -> SdfStlAnswer
    ensures { result ≡ stl_out (reply_of a) }
{
    match a {
        Err(refusal) => SdfStlAnswer {
            number: refusal.number(),
            facets: 0,
        },
        Ok(facets) => SdfStlAnswer { number: 0, facets },
    }
}
