// A mesh tidied, and what went, as one call (document 02, §10): the refusals, then the firsts of the vertices, the causes of
// the triangles, and what is kept. It takes no room beyond the lent outputs, which hold links and marks on the way. A
// part of the public face `sdf`, which users call.
#![tactic(auto)]

ghost use Rattle.std.specs.Prelude.{◌≡◌, ◌≤◌};
ghost use Rattle.refusals.specs.Numbers.{reply_of};
ghost use Rattle.tidy.specs.Tidy.{triangle_total};
ghost use Rattle.mesh.specs.Lent.{mesh_in};
ghost use Rattle.tidy_mesh.specs.Outcome.{tidy_lent_of, outputs_of, wrong_outputs, Tidyable, Found};
ghost use Rattle.tidy_mesh.specs.Outcome.{tidy_left, kept_counts, tidy_outcome, GivesTidy};

use mesh::Mesh;
use refusals::Refusal;

// How many vertices and triangles are kept.
#[derive(Clone, Copy)]
pub struct Kept {
    pub vertices: u32,
    pub triangles: u32,
}

// How long the lent outputs are.
#[derive(Clone, Copy)]
pub struct Outputs {
    pub coordinates: usize,
    pub indices: usize,
    pub firsts: usize,
    pub causes: usize,
}

// 5: a lent output of a wrong length.
fn wrong_outputs(mesh: Mesh, l: Outputs) -> bool
    requires { triangle_total (mesh_in mesh) ≤ 131072 }
    ensures { let m = mesh_in mesh.entry in
        result ≡ wrong_outputs m l }
{
    let count = mesh.vertices.len() / 3;
    let triangles = mesh_topology::triangle_count(mesh.topology, mesh.given, mesh.indices, count);
    (l.coordinates != mesh.vertices.len())
        | (l.indices != 3 * triangles)
        | (l.firsts != count)
        | (l.causes != triangles)
}

// Puts what is kept together, by the firsts and the causes.
fn squeeze(
    mesh: Mesh,
    firsts: &[u32],
    causes: &[u32],
    coordinates: &mut [f32],
    listed: &mut [u32],
) -> Kept
    requires fact { let m = mesh_in mesh in
        Tidyable m (tidy_lent_of coordinates.old listed.old firsts.now causes.now) }
    requires found { Found (mesh_in mesh) firsts.now causes.now }
    ensures value { result ≡ kept_counts (mesh_in mesh.entry) }
    ensures fact_2 { let m = mesh_in mesh.entry in
        (coordinates.new ≡ (tidy_left m).coordinates) × (listed.new ≡ (tidy_left m).indices) }
{
    tidy_marks::mark_used(
        mesh.topology,
        mesh.given,
        mesh.indices,
        firsts,
        causes,
        coordinates,
    );
    let n = firsts.len();
    let kept_vertices = tidy_marks::number_marked(coordinates, n);
    let kept_triangles = tidy_squeeze::list_kept(
        mesh.topology,
        mesh.given,
        mesh.indices,
        firsts,
        causes,
        coordinates,
        listed,
    );
    tidy_squeeze::pack(mesh.vertices, coordinates, n);
    Kept {
        vertices: kept_vertices,
        triangles: kept_triangles as u32,
    }
}

// Tidies a mesh that is not refused.
fn tidy_accepted(
    mesh: Mesh,
    coordinates: &mut [f32],
    listed: &mut [u32],
    firsts: &mut [u32],
    causes: &mut [u32],
) -> Kept
    requires { let m = mesh_in mesh in
        Tidyable m (tidy_lent_of coordinates.old listed.old firsts.old causes.old) }
    ensures value { result ≡ kept_counts (mesh_in mesh.entry) }
    ensures left_after { let m = mesh_in mesh.entry in
        let left = tidy_lent_of coordinates.new listed.new firsts.new causes.new in
        left ≡ tidy_left m }
{
    tidy_firsts::find_firsts(mesh.vertices, coordinates, firsts);
    tidy_causes::find_causes(
        mesh.topology,
        mesh.given,
        mesh.indices,
        firsts,
        listed,
        causes,
    );
    squeeze(mesh, firsts, causes, coordinates, listed)
}

// Tidies a mesh: merges vertices of identical bits into the first, drops triangles with two equal numbers and later ones
// with the same three, and squeezes out vertices that no kept triangle has. What is kept stands in front of the lent
// coordinates and indices, in its order; `firsts` has each vertex's first, `causes` why each triangle went, or 0. On a refusal
// nothing is changed.
pub fn tidy_mesh(
    mesh: Mesh,
    coordinates: &mut [f32],
    listed: &mut [u32],
    firsts: &mut [u32],
    causes: &mut [u32],
) -> Result<Kept, Refusal>
    ensures { let m = mesh_in mesh.entry in
        let lent = tidy_lent_of coordinates.old listed.old firsts.old causes.old in
        let left = tidy_lent_of coordinates.new listed.new firsts.new causes.new in
        GivesTidy (tidy_outcome m lent) (reply_of result) left }
{
    job_checks::mesh_refusal(mesh)?;
    let l = Outputs {
        coordinates: coordinates.len(),
        indices: listed.len(),
        firsts: firsts.len(),
        causes: causes.len(),
    };
    if wrong_outputs(mesh, l) {
        return Err(Refusal::WrongLength);
    }
    let kept = tidy_accepted(mesh, coordinates, listed, firsts, causes);
    Ok(kept)
}
