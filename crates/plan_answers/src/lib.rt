// What a call of the planner answers, unless it is turned away. Its meaning, from bytes and lent space alone, is in specs/.
#![tactic(auto)]

use runtime::FrameWork;

// How many rectangles and how many index words a plan has, and dew's counters of the frame.
#[derive(Clone, Copy, Debug, PartialEq, Eq)]
pub struct Plan {
    pub rects: usize,
    pub words: usize,
    pub work: FrameWork,
}

// How many rectangles, regions and index words a plan may have: what is lent for them.
#[derive(Clone, Copy, Debug, PartialEq, Eq)]
pub struct Room {
    pub rects: usize,
    pub regions: usize,
    pub words: usize,
}
