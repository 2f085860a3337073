// A scanner's file, for C: the calls of `sdf_c::files`.
ghost use Rattle.std.specs.Prelude.{◌≡◌};
ghost use Rattle.stl.specs.Reply.{counting, reading, writing};
ghost use Rattle.c_stl.specs.Stl.{stl_out, GivesStl};

use c_stl::SdfStlAnswer;

#[unsafe(no_mangle)]
pub extern "C" fn sdf_stl_facets(file: &[u8]) -> SdfStlAnswer
    ensures { result ≡ stl_out (counting file.now) }
{
    sdf_c::files::sdf_stl_facets(file)
}

#[unsafe(no_mangle)]
pub extern "C" fn sdf_read_stl(file: &[u8], vertices: &mut [f32]) -> SdfStlAnswer
    ensures { GivesStl (reading file.now vertices.old) result vertices.new }
{
    sdf_c::files::sdf_read_stl(file, vertices)
}

#[unsafe(no_mangle)]
pub extern "C" fn sdf_write_stl(vertices: &[f32], file: &mut [u8]) -> SdfStlAnswer
    ensures { GivesStl (writing vertices.now file.old) result file.new }
{
    sdf_c::files::sdf_write_stl(vertices, file)
}
