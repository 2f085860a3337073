// The terms of a job: what its caller says by value beside the grid and the mesh (document 01, "Bounds on a job"; document
// 02, §4, §8 and §11). They are handed on whole, as the grid is, from the call to the step that asks for one of them, so that a further
// one moves no signature and no walk. A part of the port: users call `sdf`.
#![tactic(auto)]

// How the crossings are counted. The plain pass adds one to every cell that a hit reaches. The quick pass marks the last of
// them alone and sums back along the lines when all triangles are through. The counts are the same.
#[derive(Clone, Copy)]
pub enum Pass {
    Plain,
    Quick,
}

// How a cell gets its sign. Raycast: by how often rays along the axes cross the mesh, for a closed hull. Normal: by the side
// of the nearest triangle that it lies on, for a mesh with no closed hull, such as a floating deck scanned from above.
#[derive(Clone, Copy)]
pub enum SignMethod {
    Raycast,
    Normal,
}

// The pop limit: how many entries may be taken. The pass, which no answer and no buffer shows. The method of the signs. And the
// edition of the layer table: 1, whose rows count cells, or 2, whose rows are in half cells; any other number is refused.
#[derive(Clone, Copy)]
pub struct Terms {
    pub limit: u32,
    pub pass: Pass,
    pub sign: SignMethod,
    pub edition: u32,
}
