// One trial: the public job over lent buffers, and the number of its answer. One function asks the job, over
// buffers of any lengths that a trial wants.
ghost use Rattle.std.specs.Prelude.{◌≡◌, ◌≤◌};
ghost use Rattle.mesh.specs.Lent.{mesh_in};
ghost use Rattle.job_checks.specs.Job.{job_of};
ghost use Rattle.refusals.specs.Numbers.{reply_of};
ghost use Rattle.job_outcome.specs.Outcome.{outcome, number_of};
ghost use Rattle.replay_bounds.specs.Trials.{unit_grid, lent_long, one_pop};

use sdf::{Answer, Grid, Indices, Mesh, Pass, Point, SignMethod, Terms, Topology};

// A grid of cells of size 1, the first at the origin, with z upright.
pub fn grid_of(x: u32, y: u32, z: u32) -> Grid
    ensures { result ≡ unit_grid x y z 2 }
{
    standing_on(x, y, z, 2)
}

// The same with the upright axis of this number.
pub fn standing_on(x: u32, y: u32, z: u32, upright: u32) -> Grid
    ensures { result ≡ unit_grid x y z upright }
{
    Grid {
        first_cell: Point {
            x: 0.0,
            y: 0.0,
            z: 0.0,
        },
        cell_size: Point {
            x: 1.0,
            y: 1.0,
            z: 1.0,
        },
        count_x: x,
        count_y: y,
        count_z: z,
        upright: upright,
    }
}

fn number_of(answer: Answer) -> u32
    ensures { result ≡ number_of (reply_of answer) }
{
    match answer {
        Ok(t) => 0,
        Err(refusal) => refusal.number(),
    }
}

// The number that a job with one pop is answered by, over lent zeros of these lengths.
pub fn asked(
    grid: Grid,
    mesh: Mesh,
    field: usize,
    names: usize,
    crossings: usize,
    rows: usize,
    distances: usize,
    cells: usize,
    triangles: usize,
) -> u32
    requires field_bound { (field ≤ 7) × (names ≤ 7) × (crossings ≤ 19) × (rows ≤ 4) }
    requires distances_bound { (distances ≤ 5) × (cells ≤ 5) × (triangles ≤ 5) }
    ensures { let job = job_of grid (mesh_in mesh.entry) one_pop in
        result ≡ number_of (outcome job (lent_long field names crossings rows distances cells triangles)).answer }
{
    let mut f = [0.0f32; 7];
    let mut n = [0u32; 7];
    let mut k = [0u32; 19];
    let mut r = [0u32; 4];
    let mut d = [0u32; 5];
    let mut c = [0u32; 5];
    let mut t = [0u32; 5];
    let answer = sdf::generate_grid_sdf(
        grid,
        mesh,
        &mut f[..field],
        &mut n[..names],
        &mut k[..crossings],
        &mut r[..rows],
        &mut d[..distances],
        &mut c[..cells],
        &mut t[..triangles],
        Terms {
            limit: 1,
            pass: Pass::Quick,
            sign: SignMethod::Raycast,
            edition: 1,
        },
    );
    number_of(answer)
}
