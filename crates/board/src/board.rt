// One board over tables that are lent to it.
ghost use Rattle.std.specs.Prelude.{◌≡◌, ℕ, ◌<◌, ◌≤◌, true, length};
ghost use Rattle.stackup.specs.Stacks.{is_signal};
ghost use Rattle.stackup.specs.Views.{closed_of};
ghost use Rattle.tables.specs.Tables.{Joined};
ghost use Rattle.board.specs.Points.{point_at};

use crate::point::Point;
use lent::Filled;
use stackup::stackup::ClosedStackup;
use tables::plan::Plan;
use tables::table::{Label, Link, Outcome};

mod check;
pub mod edit;
mod join;
pub mod route;

// Every point lies on a signal layer, and every link joins two points of the board that are apart. `standing` has the
// figures of the last accepted search, until an edit is accepted.
#[derive(Drop)]
pub struct Board<'t, G> {
    stackup: ClosedStackup,
    points: Filled<'t, Point>,
    links: Filled<'t, Link>,
    labels: &'t mut [Label<G>],
    outcomes: &'t mut [Outcome],
    standing: Option<Plan>,
    ghost few_points: { length points.used ≤ 4096 },
    ghost few_links: { length links.used ≤ 16384 },
    ghost on_signal: { (i : ℕ) → i < length points.used → is_signal (closed_of stackup).layers (point_at points.used i).layer ≡ true },
    ghost joined: { Joined (length points.used) links.used },
}
