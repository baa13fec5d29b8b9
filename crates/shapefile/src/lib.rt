// What the files of a shapefile hold of a roll (SHEETS 12), as the code passes it. No functions: the layout is in specs/, what follows from
// it in proofs/.
#![tactic(auto)]

// Which shapes (SHEETS 12.1).
#[derive(Clone, Copy)]
pub enum Layer {
    // Each trace, a PolyLine.
    Traces,
    // Each end point, a Point.
    Ends,
}

// Which file of the two that a layer has (SHEETS 12.1).
#[derive(Clone, Copy)]
pub enum Part {
    // The shapes.
    Main,
    // Where each of them begins.
    Index,
}

// A tip's way in 64ths: from its start (x, y) to its rounded end point (u, v) (SHEETS 12.5).
#[derive(Clone, Copy)]
pub struct Passage {
    pub x: u32,
    pub y: u32,
    pub u: u32,
    pub v: u32,
}
