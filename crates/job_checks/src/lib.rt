// The refusals that are checked before the run, in their order: 1, 14, 2, 13, 3, 4, 10 and 5 (document 01, "Reply numbers",
// and document 02, §6, §7 and §11). Each check answers `Ok` or its refusal, and the first that refuses ends them. A part of the port:
// users call `sdf`.
#![tactic(auto)]

ghost use Rattle.std.specs.Prelude.{◌≡◌, true, ◌+◌, ◌*◌, ◌%◌, ◌<◌};
ghost use Rattle.grid_axis.specs.AxisBounds.{is_coordinate};
ghost use Rattle.grid.specs.Bounds.{in_bounds};
ghost use Rattle.mesh.specs.Mesh.{Sound};
ghost use Rattle.mesh.specs.Lent.{mesh_in};
ghost use Rattle.lists.specs.Checks.{first_that_applies};
ghost use Rattle.refusals.specs.Numbers.{refusal_number};
ghost use Rattle.job_checks.specs.Refusals.{all_coordinates, wrong_vertices, wrong_lengths};
ghost use Rattle.job_checks.specs.Refusals.{grid_checks, edition_checks, mesh_checks, place_checks, length_checks, refusal_by};

use grid::Grid;
use mesh::Mesh;
use refusals::Refusal;

// How long the lent buffers are.
#[derive(Clone, Copy)]
pub struct Lengths {
    pub field: usize,
    pub names: usize,
    pub crossings: usize,
    pub rows: usize,
    pub distances: usize,
    pub cells: usize,
    pub triangles: usize,
}

// Whether x is finite and at most 1,048,576 in magnitude.
fn is_coordinate(x: f32) -> bool
    ensures { result ≡ is_coordinate x }
{
    float::finite_at_most(x, 1048576.0)
}

// Whether every coordinate is.
fn all_coordinates(vertices: &[f32]) -> bool
    ensures { result ≡ all_coordinates vertices.now }
{
    vertices.iter().all(|x| is_coordinate(*x))
}

// 2: not a multiple of three, too many, or a coordinate out of bounds.
pub fn wrong_vertices(vertices: &[f32]) -> bool
    ensures { result ≡ wrong_vertices vertices.now }
{
    let uneven = vertices.len() % 3 != 0;
    let many = 393_216 < vertices.len() / 3;
    let all = all_coordinates(vertices);
    uneven | many | !all
}

// 5: a lent buffer of a wrong length.
fn wrong_lengths(grid: Grid, l: Lengths) -> bool
    requires { in_bounds grid ≡ true }
    ensures { result ≡ wrong_lengths grid l }
{
    let n = grid::parts::get_total_cell_count(grid) as usize;
    let layers = grid::parts::layers(grid) as usize;
    let kept = l.distances;
    (l.field != n)
        | (l.names != n)
        | (l.crossings != 3 * n)
        | (l.rows != layers)
        | (l.cells != kept)
        | (l.triangles != kept)
}

// 1: the grid is out of bounds.
fn grid_refusal(grid: Grid) -> Result<(), Refusal>
    ensures { refusal_number result ≡ first_that_applies (grid_checks grid) }
{
    let bounded = grid.in_bounds();
    if !bounded {
        return Err(Refusal::OutOfBounds);
    }
    Ok(())
}

// 14: the edition of the layer table is neither 1 nor 2.
fn edition_refusal(edition: u32) -> Result<(), Refusal>
    ensures { refusal_number result ≡ first_that_applies (edition_checks edition) }
{
    if (edition == 1) | (edition == 2) {
        return Ok(());
    }
    Err(Refusal::NoSuchEdition)
}

// The first of 2, 13, 3 and 4 that applies to the mesh.
pub fn mesh_refusal(mesh: Mesh) -> Result<(), Refusal>
    ensures { let m = mesh_in mesh.entry in
        refusal_number result ≡ first_that_applies (mesh_checks m) }
{
    let wrong = wrong_vertices(mesh.vertices);
    if wrong {
        return Err(Refusal::WrongVertices);
    }
    let strip = mesh_checks::is_strip(mesh.topology);
    if strip {
        return Err(Refusal::Strip);
    }
    let count = mesh.vertices.len() / 3;
    let many = mesh_checks::too_many_triangles(mesh.topology, mesh.given, mesh.indices, count);
    if many {
        return Err(Refusal::TooManyTriangles);
    }
    let known = mesh_checks::in_range(mesh.topology, mesh.given, mesh.indices, count);
    if !known {
        return Err(Refusal::NoSuchIndex);
    }
    Ok(())
}

// 10: a triangle lies off the grid.
fn place_refusal(grid: Grid, mesh: Mesh) -> Result<(), Refusal>
    requires { Sound (mesh_in mesh) }
    ensures { let m = mesh_in mesh.entry in
        refusal_number result ≡ first_that_applies (place_checks grid m) }
{
    let on_grid = mesh_off_grid::all_on_grid(grid, mesh);
    if !on_grid {
        return Err(Refusal::OffGrid);
    }
    Ok(())
}

// 5: a lent buffer has a wrong length.
fn length_refusal(grid: Grid, l: Lengths) -> Result<(), Refusal>
    requires { in_bounds grid ≡ true }
    ensures { refusal_number result ≡ first_that_applies (length_checks grid l) }
{
    let wrong = wrong_lengths(grid, l);
    if wrong {
        return Err(Refusal::WrongLength);
    }
    Ok(())
}

// The first refusal that applies before the run.
pub fn first_refusal(grid: Grid, edition: u32, mesh: Mesh, l: Lengths) -> Result<(), Refusal>
    ensures { let m = mesh_in mesh.entry in
        refusal_number result ≡ refusal_by grid edition m l }
{
    grid_refusal(grid)?;
    edition_refusal(edition)?;
    mesh_refusal(mesh)?;
    place_refusal(grid, mesh)?;
    length_refusal(grid, l)
}
