// The points of a board.

// A place on a signal layer.
#[derive(Clone, Copy, PartialEq, Eq)]
pub struct Point {
    pub x: u16,
    pub y: u16,
    pub layer: u8,
}
