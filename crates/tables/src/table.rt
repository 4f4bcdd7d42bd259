// The records of the tables that a search works on. Fields stand in order of size, the widest first.
use grades::LinkCost;
use grades::key::Key;

// A track or a via between two points, which serves both ways while it is open.
#[derive(Clone, Copy)]
pub struct Link {
    pub delay: u32,
    pub cost: LinkCost,
    pub from: u16,
    pub to: u16,
    pub open: bool,
}

// `Waiting` and `Dropped` stand only while a search runs.
#[derive(Clone, Copy)]
pub enum Mark {
    Empty,
    Kept,
    Waiting,
    Dropped,
}

// What is kept of one route: its key, the bucket of the label it extends, and its last link.
#[derive(Clone, Copy)]
pub struct Label<G> {
    pub key: Key<G>,
    pub earlier: u32,
    pub link: u16,
    pub mark: Mark,
}

// What a search found at a point: its least delay, and the bucket of the route given.
#[derive(Clone, Copy)]
pub struct Outcome {
    pub delay: u32,
    pub given: u32,
    pub reached: bool,
}

// What an accepted search answers.
#[derive(Clone, Copy)]
pub struct Found {
    pub width: u32,
    pub reached: usize,
    pub taken: u64,
}
