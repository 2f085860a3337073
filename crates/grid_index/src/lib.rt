// The index of a cell and the way back, and the product of the counts, over plain numbers (document 01, "Grid" and "Bounds on a
// job"): nx, ny and nz are how many cells there are along the axes. A part of the port: users call `sdf`.
#![tactic(auto)]

ghost use Rattle.std.specs.Prelude.{◌≡◌, ◌*◌, ◌^◌, ◌≤◌, ◌<◌, ltb};
ghost use Rattle.grid_index.specs.ByCounts.{index_by, x_by, y_by, z_by, is_total};

// The index of cell (x, y, z): z fastest, then y, then x.
pub fn index(x: u32, y: u32, z: u32, ny: u32, nz: u32) -> u32
    requires { (index_by ny nz x y z < 2 ^ 32) × (0 < nz) }
    ensures { result ≡ index_by ny nz x y z }
{
    z + y * nz + x * ny * nz
}

// The x, the y and the z of the cell of an index.
pub fn x_of(i: u32, ny: u32, nz: u32) -> u32
    requires { (ny * nz < 2 ^ 32) × (0 < ny * nz) }
    ensures { result ≡ x_by ny nz i }
{
    i / (ny * nz)
}

pub fn y_of(i: u32, ny: u32, nz: u32) -> u32
    requires { (0 < ny) × (0 < nz) }
    ensures { result ≡ y_by ny nz i }
{
    (i / nz) % ny
}

pub fn z_of(i: u32, nz: u32) -> u32
    requires { 0 < nz }
    ensures { result ≡ z_by nz i }
{
    i % nz
}

// How many cells there are.
pub fn total(nx: u32, ny: u32, nz: u32) -> u32
    requires { (nx ≤ 1024) × (ny ≤ 1024) × (nz ≤ 1024) }
    ensures { result ≡ nx * ny * nz }
{
    nx * ny * nz
}

// Whether so many cells are within the bounds.
pub fn total_in_bounds(nx: u32, ny: u32, nz: u32) -> bool
    requires { (nx ≤ 1024) × (ny ≤ 1024) × (nz ≤ 1024) }
    ensures { result ≡ is_total (nx * ny * nz) }
{
    let n = total(nx, ny, nz);
    (1 <= n) & (n <= 1_048_576)
}

// Whether an index is below the number of cells.
pub fn is_index(i: u32, nx: u32, ny: u32, nz: u32) -> bool
    requires { (nx ≤ 1024) × (ny ≤ 1024) × (nz ≤ 1024) }
    ensures { result ≡ ltb i (nx * ny * nz) }
{
    i < total(nx, ny, nz)
}
