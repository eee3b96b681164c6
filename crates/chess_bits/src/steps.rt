/// A step over the board, as White sees it: so many files to the right or to the left, and so many ranks up or down.
#[derive(Clone, Copy)]
pub struct Step {
    pub right: u8,
    pub left: u8,
    pub up: u8,
    pub down: u8,
}

/// One rank up.
pub const NORTH: Step = Step {
    right: 0,
    left: 0,
    up: 1,
    down: 0,
};

/// One rank down.
pub const SOUTH: Step = Step {
    right: 0,
    left: 0,
    up: 0,
    down: 1,
};
