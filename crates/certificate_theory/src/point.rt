/// A process and a command at which a clause of the rule fails in some state.
#[derive(Clone, Copy)]
pub struct Spot {
    pub process: u8,
    pub command: u8,
}

/// A state, and where in it a clause of the rule fails.
#[derive(Clone, Copy)]
pub struct Point {
    pub state: u32,
    pub spot: Spot,
}
