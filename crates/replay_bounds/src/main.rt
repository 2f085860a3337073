// Each refusal of document 01 ("Reply numbers"), and 10 and 13 of document 02, at its exact bound: the public job is asked
// on both sides of it, and what it answers is printed beside what was asked. The file `stdout` has the numbers that
// the two documents give. Refusals 7 and 8 at their bounds are jobs of the sample that `replay_jobs` runs.
#![tactic(auto)]

mod counting;
mod trial;

ghost use Rattle.std.specs.Prelude.{◌≡◌, ◌≤◌};
ghost use Rattle.mesh.specs.Lent.{mesh_in};
ghost use Rattle.job_checks.specs.Job.{job_of};
ghost use Rattle.job_outcome.specs.Outcome.{outcome, number_of};
ghost use Rattle.replay_bounds.specs.Trials.{lent_long, one_pop};

use sdf::{Axis, Grid, Indices, Mesh, Point, Topology};
use std::io;

fn tell(rt: &impl Print, name: &[u8], number: u32) -> io::Result<()> {
    print!(rt; "{number} ")?;
    rt.write_all(name)?;
    rt.write_all(b"\n")
}

// The number that a job over the buffers of one cell, with room for one entry, is answered by.
fn one_cell(grid: Grid, mesh: Mesh) -> u32
    ensures { let job = job_of grid (mesh_in mesh.entry) one_pop in
        result ≡ number_of (outcome job (lent_long 1 1 3 1 1 1 1)).answer }
{
    trial::asked(grid, mesh, 1, 1, 3, 1, 1, 1, 1)
}

fn try_job(rt: &impl Print, name: &[u8], grid: Grid, mesh: Mesh) -> io::Result<()> {
    tell(rt, name, one_cell(grid, mesh))
}

// ---- 1: the grid. One cell is lent, so a grid of several cells that is not out of bounds is answered 5.

fn try_grid(rt: &impl Print, name: &[u8], grid: Grid) -> io::Result<()> {
    let vertices = [0.0f32; 3];
    let indices = [0u32; 1];
    try_job(
        rt,
        name,
        grid,
        Mesh {
            vertices: &vertices,
            topology: Topology::TriangleList,
            given: Indices::Given,
            indices: &indices,
        },
    )
}

fn try_counts(rt: &impl Print, name: &[u8], x: u32, y: u32, z: u32) -> io::Result<()> {
    try_grid(rt, name, trial::grid_of(x, y, z))
}

fn try_cell(rt: &impl Print, name: &[u8], first: Point, size: Point) -> io::Result<()> {
    let grid = Grid {
        first_cell: first,
        cell_size: size,
        count_x: 1,
        count_y: 1,
        count_z: 1,
        upright: 2,
    };
    try_grid(rt, name, grid)
}

fn try_first(rt: &impl Print, name: &[u8], x: f32, y: f32, z: f32) -> io::Result<()> {
    let size = Point {
        x: 1.0,
        y: 1.0,
        z: 1.0,
    };
    try_cell(rt, name, Point { x: x, y: y, z: z }, size)
}

fn try_size(rt: &impl Print, name: &[u8], x: f32, y: f32, z: f32) -> io::Result<()> {
    let first = Point {
        x: 0.0,
        y: 0.0,
        z: 0.0,
    };
    try_cell(rt, name, first, Point { x: x, y: y, z: z })
}

fn counts(rt: &impl Print) -> io::Result<()> {
    try_counts(rt, b"count 0 1 1", 0, 1, 1)?;
    try_counts(rt, b"count 1 0 1", 1, 0, 1)?;
    try_counts(rt, b"count 1 1 0", 1, 1, 0)?;
    try_counts(rt, b"count 1 1 1", 1, 1, 1)?;
    try_counts(rt, b"count 1024 1 1", 1024, 1, 1)?;
    try_counts(rt, b"count 1 1024 1", 1, 1024, 1)?;
    try_counts(rt, b"count 1 1 1024", 1, 1, 1024)?;
    try_counts(rt, b"count 1025 1 1", 1025, 1, 1)?;
    try_counts(rt, b"count 1 1025 1", 1, 1025, 1)?;
    try_counts(rt, b"count 1 1 1025", 1, 1, 1025)?;
    try_counts(rt, b"count 31 41 825, product 1048575", 31, 41, 825)?;
    try_counts(rt, b"count 1024 1024 1, product 1048576", 1024, 1024, 1)?;
    try_counts(rt, b"count 7 163 919, product 1048579", 7, 163, 919)?;
    try_counts(rt, b"count 1024 1024 1024", 1024, 1024, 1024)?;
    try_counts(rt, b"count 65536 65536 1", 65536, 65536, 1)
}

fn first_cells(rt: &impl Print) -> io::Result<()> {
    try_first(rt, b"first 1048575.9375 0 0", 1048575.9375, 0.0, 0.0)?;
    try_first(rt, b"first 1048576 -1048576 0", 1048576.0, -1048576.0, 0.0)?;
    try_first(rt, b"first 0 0 1048576", 0.0, 0.0, 1048576.0)?;
    try_first(rt, b"first 1048576.125 0 0", 1048576.125, 0.0, 0.0)?;
    try_first(rt, b"first 0 -1048576.125 0", 0.0, -1048576.125, 0.0)?;
    try_first(rt, b"first 0 0 1048576.125", 0.0, 0.0, 1048576.125)?;
    try_first(rt, b"first 0 infinity 0", 0.0, 1.0 / 0.0, 0.0)?;
    try_first(rt, b"first NaN 0 0", 0.0 / 0.0, 0.0, 0.0)
}

fn sizes(rt: &impl Print) -> io::Result<()> {
    try_size(rt, b"size 3a7fffff 1 1", 9.7656244e-4, 1.0, 1.0)?;
    try_size(rt, b"size 1 3a7fffff 1", 1.0, 9.7656244e-4, 1.0)?;
    try_size(rt, b"size 1 1 3a7fffff", 1.0, 1.0, 9.7656244e-4)?;
    try_size(
        rt,
        b"size 3a800000 3a800001 1",
        9.765625e-4,
        9.765626e-4,
        1.0,
    )?;
    try_size(rt, b"size 447fffff 44800000 1", 1.02399994e3, 1.024e3, 1.0)?;
    try_size(rt, b"size 44800001 1 1", 1.0240001e3, 1.0, 1.0)?;
    try_size(rt, b"size 1 44800001 1", 1.0, 1.0240001e3, 1.0)?;
    try_size(rt, b"size 1 1 44800001", 1.0, 1.0, 1.0240001e3)?;
    try_size(rt, b"size -1 1 1", -1.0, 1.0, 1.0)?;
    try_size(rt, b"size 1 0 1", 1.0, 0.0, 1.0)?;
    try_size(rt, b"size 1 1 NaN", 1.0, 1.0, 0.0 / 0.0)
}

// The upright axis (document 02, §9), of one cell.
fn try_upright(rt: &impl Print, name: &[u8], upright: u32) -> io::Result<()> {
    try_grid(rt, name, trial::standing_on(1, 1, 1, upright))
}

fn uprights(rt: &impl Print) -> io::Result<()> {
    try_upright(rt, b"upright 0", 0)?;
    try_upright(rt, b"upright 1", 1)?;
    try_upright(rt, b"upright 2", 2)?;
    try_upright(rt, b"upright 3", 3)?;
    try_upright(rt, b"upright 4294967295", 4294967295)
}

// ---- 2, 3 and 4: the vertices, how many triangles, and their indices. One cell, with room for one entry.

fn try_mesh(rt: &impl Print, name: &[u8], mesh: Mesh) -> io::Result<()> {
    let grid = trial::grid_of(1, 1, 1);
    try_job(rt, name, grid, mesh)
}

fn try_vertices(rt: &impl Print, name: &[u8], vertices: &[f32]) -> io::Result<()> {
    let no_index = [0u32; 1];
    try_mesh(
        rt,
        name,
        Mesh {
            vertices,
            topology: Topology::TriangleList,
            given: Indices::Given,
            indices: &no_index[..0],
        },
    )
}

// Four vertices, one of which has the coordinate x, and none of which is used.
fn try_coordinate(rt: &impl Print, name: &[u8], x: f32) -> io::Result<()> {
    let vertices = [0.0, 1.0, 2.0, 3.0, 4.0, 5.0, 6.0, 7.0, 8.0, 9.0, 10.0, x];
    try_vertices(rt, name, &vertices)
}

// The first k of the coordinates.
fn try_coordinates(rt: &impl Print, name: &[u8], many: &[f32], k: usize) -> io::Result<()> {
    let n = counting::as_far_as(many, k);
    try_vertices(rt, name, &many[..n])
}

fn vertex_counts(rt: &impl Print, many: &[f32]) -> io::Result<()> {
    try_coordinates(rt, b"0 coordinates", many, 0)?;
    try_coordinates(rt, b"1 coordinate", many, 1)?;
    try_coordinates(rt, b"2 coordinates", many, 2)?;
    try_coordinates(rt, b"3 coordinates", many, 3)?;
    try_coordinates(rt, b"4 coordinates", many, 4)
}

fn coordinates(rt: &impl Print) -> io::Result<()> {
    try_coordinate(rt, b"coordinate 1048575.9375", 1048575.9375)?;
    try_coordinate(rt, b"coordinate 1048576", 1048576.0)?;
    try_coordinate(rt, b"coordinate -1048576", -1048576.0)?;
    try_coordinate(rt, b"coordinate 1048576.125", 1048576.125)?;
    try_coordinate(rt, b"coordinate -1048576.125", -1048576.125)?;
    try_coordinate(rt, b"coordinate infinity", 1.0 / 0.0)?;
    try_coordinate(rt, b"coordinate NaN", 0.0 / 0.0)
}

fn vertex_bounds(rt: &impl Print) -> io::Result<()> {
    let many = [0.0f32; 4];
    vertex_counts(rt, &many)?;
    coordinates(rt)
}

// The first k of the indices, all of vertex 0, which is the only one.
fn try_indices(
    rt: &impl Print,
    name: &[u8],
    topology: Topology,
    many: &[u32],
    k: usize,
) -> io::Result<()> {
    let vertices = [0.0f32; 3];
    let n = counting::as_far_as(many, k);
    try_mesh(
        rt,
        name,
        Mesh {
            vertices: &vertices,
            topology,
            given: Indices::Given,
            indices: &many[..n],
        },
    )
}

// The same with that vertex off the grid: 3 comes before 10.
fn try_indices_off(rt: &impl Print, name: &[u8], many: &[u32], k: usize) -> io::Result<()> {
    let vertices = [9.0f32; 3];
    let n = counting::as_far_as(many, k);
    try_mesh(
        rt,
        name,
        Mesh {
            vertices: &vertices,
            topology: Topology::TriangleList,
            given: Indices::Given,
            indices: &many[..n],
        },
    )
}

fn triangle_counts(rt: &impl Print, many: &[u32]) -> io::Result<()> {
    try_indices(
        rt,
        b"list of 393215 indices",
        Topology::TriangleList,
        many,
        393215,
    )?;
    try_indices(
        rt,
        b"list of 393216 indices",
        Topology::TriangleList,
        many,
        393216,
    )?;
    try_indices(
        rt,
        b"list of 393218 indices",
        Topology::TriangleList,
        many,
        393218,
    )?;
    try_indices(
        rt,
        b"list of 393219 indices",
        Topology::TriangleList,
        many,
        393219,
    )?;
    try_indices_off(rt, b"list of 393216 indices, off the grid", many, 393216)?;
    try_indices_off(rt, b"list of 393219 indices, off the grid", many, 393219)
}

fn triangle_bounds(rt: &impl Print) -> io::Result<()> {
    let many = [0u32; 393219];
    triangle_counts(rt, &many)
}

// Three vertices, and indices of which the last may be out of bounds.
fn try_index(rt: &impl Print, name: &[u8], topology: Topology, indices: &[u32]) -> io::Result<()> {
    let vertices = [0.0, 0.0, 0.0, 4.0, 0.0, 0.0, 0.0, 4.0, 0.0];
    try_mesh(
        rt,
        name,
        Mesh {
            vertices: &vertices,
            topology,
            given: Indices::Given,
            indices,
        },
    )
}

fn index_bounds(rt: &impl Print) -> io::Result<()> {
    try_index(rt, b"list 0 1 1", Topology::TriangleList, &[0, 1, 1])?;
    try_index(rt, b"list 0 1 2", Topology::TriangleList, &[0, 1, 2])?;
    try_index(rt, b"list 0 1 3", Topology::TriangleList, &[0, 1, 3])?;
    try_index(
        rt,
        b"list 4294967295 1 2",
        Topology::TriangleList,
        &[4294967295, 1, 2],
    )?;
    try_index(
        rt,
        b"list 0 1 2 3 3, two left over",
        Topology::TriangleList,
        &[0, 1, 2, 3, 3],
    )?;
    try_index(
        rt,
        b"list 0 1 2 3 3 3",
        Topology::TriangleList,
        &[0, 1, 2, 3, 3, 3],
    )?;
    try_index(
        rt,
        b"list 3 3, no triangle",
        Topology::TriangleList,
        &[3, 3],
    )
}

// ---- 10: a triangle off the grid. The box of one cell at the origin reaches from -0.5 to 0.5 on each axis, and a
// triangle is asked for on both sides of each of its six sides: one float out, touching, one float in.

fn try_triangle(rt: &impl Print, name: &[u8], grid: Grid, vertices: &[f32]) -> io::Result<()> {
    try_job(
        rt,
        name,
        grid,
        Mesh {
            vertices,
            topology: Topology::TriangleList,
            given: Indices::Given,
            indices: &[0, 1, 2],
        },
    )
}

// A point that has `along` on an axis, u on the next and v on the one after that.
fn corner(axis: Axis, along: f32, u: f32, v: f32) -> Point {
    match axis {
        Axis::X => Point {
            x: along,
            y: u,
            z: v,
        },
        Axis::Y => Point {
            x: v,
            y: along,
            z: u,
        },
        Axis::Z => Point {
            x: u,
            y: v,
            z: along,
        },
    }
}

// What the three corners have along an axis; on the others they lie within the box.
fn try_on(
    rt: &impl Print,
    axis: Axis,
    letter: &[u8],
    words: &[u8],
    a: f32,
    b: f32,
    c: f32,
) -> io::Result<()> {
    let p = corner(axis, a, 0.0, 0.0);
    let q = corner(axis, b, 0.25, 0.0);
    let r = corner(axis, c, 0.0, 0.25);
    let vertices = [p.x, p.y, p.z, q.x, q.y, q.z, r.x, r.y, r.z];
    let number = one_cell(
        trial::grid_of(1, 1, 1),
        Mesh {
            vertices: &vertices,
            topology: Topology::TriangleList,
            given: Indices::Given,
            indices: &[0, 1, 2],
        },
    );
    print!(rt; "{number} ")?;
    rt.write_all(letter)?;
    rt.write_all(words)?;
    rt.write_all(b"\n")
}

fn sides(rt: &impl Print, axis: Axis, letter: &[u8]) -> io::Result<()> {
    try_on(
        rt,
        axis,
        letter,
        b" bf000001 bf000001 bf000001",
        -0.50000006,
        -0.50000006,
        -0.50000006,
    )?;
    try_on(
        rt,
        axis,
        letter,
        b" bf000000 bf000000 bf000000",
        -0.5,
        -0.5,
        -0.5,
    )?;
    try_on(
        rt,
        axis,
        letter,
        b" beffffff beffffff beffffff",
        -0.49999997,
        -0.49999997,
        -0.49999997,
    )?;
    try_on(rt, axis, letter, b" -2 bf000000 -2", -2.0, -0.5, -2.0)?;
    try_on(
        rt,
        axis,
        letter,
        b" -2 -2 bf000001",
        -2.0,
        -2.0,
        -0.50000006,
    )?;
    try_on(
        rt,
        axis,
        letter,
        b" 3effffff 3effffff 3effffff",
        0.49999997,
        0.49999997,
        0.49999997,
    )?;
    try_on(
        rt,
        axis,
        letter,
        b" 3f000000 3f000000 3f000000",
        0.5,
        0.5,
        0.5,
    )?;
    try_on(
        rt,
        axis,
        letter,
        b" 3f000001 3f000001 3f000001",
        0.50000006,
        0.50000006,
        0.50000006,
    )?;
    try_on(rt, axis, letter, b" 2 3f000000 2", 2.0, 0.5, 2.0)?;
    try_on(rt, axis, letter, b" 2 2 3f000001", 2.0, 2.0, 0.50000006)?;
    try_on(rt, axis, letter, b" -2 2 2", -2.0, 2.0, 2.0)?;
    try_on(rt, axis, letter, b" -2 -2 2", -2.0, -2.0, 2.0)
}

// Not off the grid, since no axis parts them from the box: two triangles that have no point in it, and one that cuts
// through it with all its corners out.
fn no_axis(rt: &impl Print) -> io::Result<()> {
    try_triangle(
        rt,
        b"beyond an edge of the box",
        trial::grid_of(1, 1, 1),
        &[-2.0, 0.25, 0.0, 0.25, -2.0, 0.0, -1.5, -1.5, 0.0],
    )?;
    try_triangle(
        rt,
        b"beyond a corner of the box",
        trial::grid_of(1, 1, 1),
        &[-2.0, -2.0, 0.25, -2.0, 0.25, -2.0, 0.25, -2.0, -2.0],
    )?;
    try_triangle(
        rt,
        b"around the box",
        trial::grid_of(1, 1, 1),
        &[-9.0, -9.0, 0.0, 9.0, -9.0, 0.0, 0.0, 9.0, 0.0],
    )
}

// One cell of size 0.1, and a triangle across it at x. Its box is rounded: from 3e800000 to 3eb33333 where the
// centre is 0.3, and from 3f866667 to 3f933334 where it is 1.1. Centre + size / 2 would be one float more at 0.3,
// and one less at 1.1.
fn try_rounded(rt: &impl Print, name: &[u8], centre: f32, x: f32) -> io::Result<()> {
    let grid = Grid {
        first_cell: Point {
            x: centre,
            y: centre,
            z: centre,
        },
        cell_size: Point {
            x: 0.1,
            y: 0.1,
            z: 0.1,
        },
        count_x: 1,
        count_y: 1,
        count_z: 1,
        upright: 2,
    };
    let off = centre + 0.01;
    try_triangle(
        rt,
        name,
        grid,
        &[x, centre, centre, x, off, centre, x, centre, off],
    )
}

fn rounded(rt: &impl Print) -> io::Result<()> {
    try_rounded(rt, b"centre 0.3, 3e7fffff", 0.3, 0.24999999)?;
    try_rounded(rt, b"centre 0.3, 3e800000", 0.3, 0.25)?;
    try_rounded(rt, b"centre 0.3, 3eb33333", 0.3, 0.35)?;
    try_rounded(rt, b"centre 0.3, 3eb33334", 0.3, 0.35000002)?;
    try_rounded(rt, b"centre 1.1, 3f866666", 1.1, 1.05)?;
    try_rounded(rt, b"centre 1.1, 3f866667", 1.1, 1.0500001)?;
    try_rounded(rt, b"centre 1.1, 3f933334", 1.1, 1.1500001)?;
    try_rounded(rt, b"centre 1.1, 3f933335", 1.1, 1.1500002)
}

// Three vertices within the box and a fourth off it, over a grid of so many cells along x.
fn try_fourth(
    rt: &impl Print,
    name: &[u8],
    cells: u32,
    topology: Topology,
    indices: &[u32],
) -> io::Result<()> {
    let vertices = [0.0, 0.0, 0.0, 0.25, 0.0, 0.0, 0.0, 0.25, 0.0, 0.0, 0.0, 9.0];
    let grid = trial::grid_of(cells, 1, 1);
    try_job(
        rt,
        name,
        grid,
        Mesh {
            vertices: &vertices,
            topology,
            given: Indices::Given,
            indices,
        },
    )
}

fn try_list(rt: &impl Print, name: &[u8], indices: &[u32]) -> io::Result<()> {
    try_fourth(rt, name, 1, Topology::TriangleList, indices)
}

// Only triangles count, and one is enough, whichever it is.
fn which_triangles(rt: &impl Print) -> io::Result<()> {
    try_list(rt, b"3 off, list 0 1 2", &[0, 1, 2])?;
    try_list(
        rt,
        b"3 off, list 0 1 2 3 3, two left over",
        &[0, 1, 2, 3, 3],
    )?;
    try_list(rt, b"3 off, list 3 3, no triangle", &[3, 3])?;
    try_list(rt, b"3 off, list 0 1 3", &[0, 1, 3])?;
    try_list(rt, b"3 off, list 0 3 3", &[0, 3, 3])?;
    try_list(rt, b"3 off, list 0 1 2 3 3 3", &[0, 1, 2, 3, 3, 3])?;
    try_list(rt, b"3 off, list 3 3 3 0 1 2", &[3, 3, 3, 0, 1, 2])
}

// The same mesh with no room for an entry.
fn try_no_room(
    rt: &impl Print,
    name: &[u8],
    topology: Topology,
    indices: &[u32],
) -> io::Result<()> {
    let vertices = [0.0, 0.0, 0.0, 0.25, 0.0, 0.0, 0.0, 0.25, 0.0, 0.0, 0.0, 9.0];
    let number = trial::asked(
        trial::grid_of(1, 1, 1),
        Mesh {
            vertices: &vertices,
            topology,
            given: Indices::Given,
            indices,
        },
        1,
        1,
        3,
        1,
        0,
        0,
        0,
    );
    tell(rt, name, number)
}

// Two corners a hair apart, whose distance is a NaN, and a vertex off the grid.
fn try_hair(rt: &impl Print, name: &[u8], topology: Topology, indices: &[u32]) -> io::Result<()> {
    let vertices = [0.0, 0.0, 0.0, 7.888609e-31, 0.0, 0.0, 0.0, 0.0, 9.0];
    let grid = trial::grid_of(1, 1, 1);
    try_job(
        rt,
        name,
        grid,
        Mesh {
            vertices: &vertices,
            topology,
            given: Indices::Given,
            indices,
        },
    )
}

// After 1 to 4 (that it comes after 3 is shown with 3), and before 5, 6 and 7. One cell is lent: of two cells 5 is
// owed.
fn its_place(rt: &impl Print) -> io::Result<()> {
    let list = Topology::TriangleList;
    try_fourth(rt, b"3 off, no cell, list 3 3 3", 0, list, &[3, 3, 3])?;
    try_on(
        rt,
        Axis::X,
        b"x",
        b" infinity infinity infinity",
        1.0 / 0.0,
        1.0 / 0.0,
        1.0 / 0.0,
    )?;
    try_list(rt, b"3 off, list 3 3 3 0 1 4", &[3, 3, 3, 0, 1, 4])?;
    try_fourth(rt, b"3 off, two cells, list 0 1 2", 2, list, &[0, 1, 2])?;
    try_fourth(rt, b"3 off, two cells, list 3 3 3", 2, list, &[3, 3, 3])?;
    try_hair(rt, b"a hair, list 0 0 1", list, &[0, 0, 1])?;
    try_hair(rt, b"a hair, list 0 0 1 2 2 2", list, &[0, 0, 1, 2, 2, 2])?;
    try_no_room(rt, b"3 off, no room, list 0 1 2", list, &[0, 1, 2])?;
    try_no_room(rt, b"3 off, no room, list 3 3 3", list, &[3, 3, 3])
}

fn off_grid(rt: &impl Print) -> io::Result<()> {
    sides(rt, Axis::X, b"x")?;
    sides(rt, Axis::Y, b"y")?;
    sides(rt, Axis::Z, b"z")?;
    no_axis(rt)?;
    rounded(rt)?;
    which_triangles(rt)?;
    its_place(rt)
}

// ---- 13: a strip (document 02, §7), whatever else may be said of its triangles, or if it has none.

// A strip of the first k of the coordinates, without indices.
fn try_unindexed(rt: &impl Print, name: &[u8], many: &[f32], k: usize) -> io::Result<()> {
    let no_index = [0u32; 1];
    let n = counting::as_far_as(many, k);
    try_mesh(
        rt,
        name,
        Mesh {
            vertices: &many[..n],
            topology: Topology::TriangleStrip,
            given: Indices::None,
            indices: &no_index,
        },
    )
}

fn try_strip(rt: &impl Print, name: &[u8], indices: &[u32]) -> io::Result<()> {
    try_index(rt, name, Topology::TriangleStrip, indices)
}

// With fewer triangles than a job may have, as many, and one more, which would be 3: without indices and with them.
fn long_strips(rt: &impl Print) -> io::Result<()> {
    let coordinates = [0.0f32; 393225];
    try_unindexed(rt, b"strip without indices, 0 vertices", &coordinates, 0)?;
    try_unindexed(rt, b"strip without indices, 2 vertices", &coordinates, 6)?;
    try_unindexed(rt, b"strip without indices, 3 vertices", &coordinates, 9)?;
    try_unindexed(
        rt,
        b"strip without indices, 131073 vertices",
        &coordinates,
        393219,
    )?;
    try_unindexed(
        rt,
        b"strip without indices, 131074 vertices",
        &coordinates,
        393222,
    )?;
    try_unindexed(
        rt,
        b"strip without indices, 131075 vertices",
        &coordinates,
        393225,
    )?;
    let strip = Topology::TriangleStrip;
    let indices = [0u32; 131075];
    try_indices(rt, b"strip of 0 indices", strip, &indices, 0)?;
    try_indices(rt, b"strip of 131073 indices", strip, &indices, 131073)?;
    try_indices(rt, b"strip of 131074 indices", strip, &indices, 131074)?;
    try_indices(rt, b"strip of 131075 indices", strip, &indices, 131075)
}

// After 1 and 2, and before 4, 10, 5, 6 and 7 (that it comes before 3 is shown above).
fn strips(rt: &impl Print) -> io::Result<()> {
    long_strips(rt)?;
    let strip = Topology::TriangleStrip;
    try_strip(rt, b"strip 0 1", &[0, 1])?;
    try_strip(rt, b"strip 0 1 2", &[0, 1, 2])?;
    try_strip(rt, b"strip 3 3, no triangle", &[3, 3])?;
    try_strip(rt, b"strip 0 1 2 3", &[0, 1, 2, 3])?;
    try_fourth(rt, b"3 off, strip 0 1 2 3 3", 1, strip, &[0, 1, 2, 3, 3])?;
    try_fourth(
        rt,
        b"3 off, strip 0 1 2 3 3 3",
        1,
        strip,
        &[0, 1, 2, 3, 3, 3],
    )?;
    try_fourth(rt, b"3 off, two cells, strip 0 1 2", 2, strip, &[0, 1, 2])?;
    try_hair(rt, b"a hair, strip 0 0 1", strip, &[0, 0, 1])?;
    try_no_room(rt, b"3 off, no room, strip 0 1 2", strip, &[0, 1, 2])?;
    try_fourth(rt, b"no cell, strip 0 1 2", 0, strip, &[0, 1, 2])?;
    let one = [0.0f32; 1];
    try_unindexed(rt, b"strip without indices, 1 coordinate", &one, 1)?;
    let endless = [1.0 / 0.0, 0.0, 0.0];
    try_unindexed(rt, b"strip without indices, infinity 0 0", &endless, 3)
}

// ---- 5: the lengths of what is lent, over a grid of 2 x 1 x 3 cells: 6 magnitudes, 6 names, 18 crossing counts,
// 3 rows, and three buffers of one length for the queue are right.

fn try_lengths(
    rt: &impl Print,
    name: &[u8],
    field: usize,
    names: usize,
    crossings: usize,
    rows: usize,
    distances: usize,
    cells: usize,
    triangles: usize,
) -> io::Result<()>
    requires field_bound { (field ≤ 7) × (names ≤ 7) × (crossings ≤ 19) × (rows ≤ 4) }
    requires distances_bound { (distances ≤ 5) × (cells ≤ 5) × (triangles ≤ 5) }
{
    let vertices = [0.0f32; 3];
    let indices = [0u32; 1];
    let number = trial::asked(
        trial::grid_of(2, 1, 3),
        Mesh {
            vertices: &vertices,
            topology: Topology::TriangleList,
            given: Indices::Given,
            indices: &indices,
        },
        field,
        names,
        crossings,
        rows,
        distances,
        cells,
        triangles,
    );
    tell(rt, name, number)
}

fn length_bounds(rt: &impl Print) -> io::Result<()> {
    try_lengths(rt, b"field 5", 5, 6, 18, 3, 4, 4, 4)?;
    try_lengths(rt, b"field 6", 6, 6, 18, 3, 4, 4, 4)?;
    try_lengths(rt, b"field 7", 7, 6, 18, 3, 4, 4, 4)?;
    try_lengths(rt, b"names 5", 6, 5, 18, 3, 4, 4, 4)?;
    try_lengths(rt, b"names 6", 6, 6, 18, 3, 4, 4, 4)?;
    try_lengths(rt, b"names 7", 6, 7, 18, 3, 4, 4, 4)?;
    try_lengths(rt, b"crossings 17", 6, 6, 17, 3, 4, 4, 4)?;
    try_lengths(rt, b"crossings 18", 6, 6, 18, 3, 4, 4, 4)?;
    try_lengths(rt, b"crossings 19", 6, 6, 19, 3, 4, 4, 4)?;
    try_lengths(rt, b"rows 2", 6, 6, 18, 2, 4, 4, 4)?;
    try_lengths(rt, b"rows 3", 6, 6, 18, 3, 4, 4, 4)?;
    try_lengths(rt, b"rows 4", 6, 6, 18, 4, 4, 4, 4)?;
    try_lengths(rt, b"queue 4 4 4", 6, 6, 18, 3, 4, 4, 4)?;
    try_lengths(rt, b"queue 3 4 4", 6, 6, 18, 3, 3, 4, 4)?;
    try_lengths(rt, b"queue 5 4 4", 6, 6, 18, 3, 5, 4, 4)?;
    try_lengths(rt, b"queue 4 3 4", 6, 6, 18, 3, 4, 3, 4)?;
    try_lengths(rt, b"queue 4 5 4", 6, 6, 18, 3, 4, 5, 4)?;
    try_lengths(rt, b"queue 4 4 3", 6, 6, 18, 3, 4, 4, 3)?;
    try_lengths(rt, b"queue 4 4 5", 6, 6, 18, 3, 4, 4, 5)
}

// The same grid with another axis upright: as many rows are right as that axis has cells, 2 along x and 1 along y.
fn try_rows(rt: &impl Print, name: &[u8], upright: u32, rows: usize) -> io::Result<()>
    requires { rows ≤ 4 }
{
    let vertices = [0.0f32; 3];
    let indices = [0u32; 1];
    let number = trial::asked(
        trial::standing_on(2, 1, 3, upright),
        Mesh {
            vertices: &vertices,
            topology: Topology::TriangleList,
            given: Indices::Given,
            indices: &indices,
        },
        6,
        6,
        18,
        rows,
        4,
        4,
        4,
    );
    tell(rt, name, number)
}

fn row_bounds(rt: &impl Print) -> io::Result<()> {
    try_rows(rt, b"upright 0, rows 1", 0, 1)?;
    try_rows(rt, b"upright 0, rows 2", 0, 2)?;
    try_rows(rt, b"upright 0, rows 3", 0, 3)?;
    try_rows(rt, b"upright 1, rows 1", 1, 1)?;
    try_rows(rt, b"upright 1, rows 2", 1, 2)?;
    try_rows(rt, b"upright 1, rows 3", 1, 3)?;
    try_rows(rt, b"upright 2, rows 2", 2, 2)?;
    try_rows(rt, b"upright 2, rows 3", 2, 3)?;
    try_rows(rt, b"upright 3, rows 3", 3, 3)
}

// ---- 6: a NaN distance. The corners (0,0,0), (0,0,0), (x,0,0) and a cell at (0,0,0): where the squared
// length underflows to 0 the distance is 0/0.

fn try_edge(rt: &impl Print, name: &[u8], x: f32) -> io::Result<()> {
    let vertices = [0.0, 0.0, 0.0, 0.0, 0.0, 0.0, x, 0.0, 0.0];
    try_mesh(
        rt,
        name,
        Mesh {
            vertices: &vertices,
            topology: Topology::TriangleList,
            given: Indices::Given,
            indices: &[0, 1, 2],
        },
    )
}

fn not_a_number(rt: &impl Print) -> io::Result<()> {
    try_edge(rt, b"edge 0d800000, 2^-100", 7.888609e-31)?;
    try_edge(rt, b"edge 19ffffff", 2.6469778e-23)?;
    try_edge(rt, b"edge 1a000000, 2^-75", 2.646978e-23)?;
    try_edge(rt, b"edge 1a000001", 2.6469783e-23)
}

fn main(rt: HostRuntime) -> io::Result<()> {
    counts(&rt)?;
    first_cells(&rt)?;
    sizes(&rt)?;
    uprights(&rt)?;
    vertex_bounds(&rt)?;
    triangle_bounds(&rt)?;
    index_bounds(&rt)?;
    off_grid(&rt)?;
    strips(&rt)?;
    length_bounds(&rt)?;
    row_bounds(&rt)?;
    not_a_number(&rt)
}
