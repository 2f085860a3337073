// What tidying a mesh gives for C beside slices: the answer.
#![tactic(auto)]

ghost use Rattle.std.specs.Prelude.{◌≡◌};
ghost use Rattle.refusals.specs.Numbers.{reply_of};
ghost use Rattle.c_tidy.specs.Tidy.{tidy_out};

use refusals::Refusal;
use tidy_mesh::Kept;

// Document 02's number, 0 where nothing is refused, with how many vertices and triangles are kept; on a refusal both are
// 0.
#[repr(C)]
#[derive(Clone, Copy)]
pub struct SdfTidyAnswer {
    pub number: u32,
    pub vertices: u32,
    pub triangles: u32,
}

pub fn tidy_out(a: Result<Kept, Refusal>) -> SdfTidyAnswer
    ensures { result ≡ tidy_out (reply_of a) }
{
    match a {
        Ok(k) => SdfTidyAnswer {
            number: 0,
            vertices: k.vertices,
            triangles: k.triangles,
        },
        Err(refusal) => SdfTidyAnswer {
            number: refusal.number(),
            vertices: 0,
            triangles: 0,
        },
    }
}
