// A scanner's file, binary STL, for C: `sdf::stl_count`, `sdf::read_stl` and `sdf::write_stl`, with the answer as a record. A
// slice is two parameters in C, a pointer and a count.
ghost use Rattle.std.specs.Prelude.{◌≡◌};
ghost use Rattle.stl.specs.Reply.{counting, reading, writing};
ghost use Rattle.c_stl.specs.Stl.{stl_out, GivesStl};

use c_stl::{SdfStlAnswer, stl_out};

pub fn sdf_stl_facets(file: &[u8]) -> SdfStlAnswer
    ensures { result ≡ stl_out (counting file.now) }
{
    stl_out(sdf::stl_count(file))
}

pub fn sdf_read_stl(file: &[u8], vertices: &mut [f32]) -> SdfStlAnswer
    ensures { GivesStl (reading file.now vertices.old) result vertices.new }
{
    stl_out(sdf::read_stl(file, vertices))
}

pub fn sdf_write_stl(vertices: &[f32], file: &mut [u8]) -> SdfStlAnswer
    ensures { GivesStl (writing vertices.now file.old) result file.new }
{
    stl_out(sdf::write_stl(vertices, file))
}
