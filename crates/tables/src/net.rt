// The links that a search goes over.
ghost use Rattle.std.specs.Prelude.{ℕ, ◌≤◌, length};
ghost use Rattle.tables.specs.Tables.{Joined};

use crate::table::Link;

// The links of a board with so many points. Both ends of each link are on the board, and apart.
#[derive(Clone, Copy)]
pub struct Net<'l> {
    pub points: usize,
    pub links: &'l [Link],
    ghost few: { points ≤ 4096 },
    ghost numbered: { length links.now ≤ 16384 },
    ghost joined: { Joined points links.now },
}
