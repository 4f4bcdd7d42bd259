// The checks of the edits, each for itself.
ghost use Rattle.std.specs.Prelude.{◌≤◌, [], ◌∷◌, length};
ghost use Rattle.faults.specs.Checks.{Checked, if_fails};
ghost use Rattle.board.specs.Edits.{place_check, gap_check, room_check, taken_check, point_checks, point_check, link_check, ends_check, join_checks};
ghost use Rattle.board.specs.Views.{view_of};

use crate::board::Board;
use crate::board::join::Join;
use crate::point::Point;
use faults::{Fault, check_range};
use grades::Grade;
use lent::Filled;

const MAX_POINTS: usize = 4096;

const MAX_LINKS: usize = 16384;

const MAX_PLACE: u64 = 20_000;

const MAX_GAP: u64 = 20_000;

fn check_place(x: u16, y: u16) -> Result<(), Fault>
    ensures { Checked (place_check x y ∷ []) result }
{
    check_range(x.into(), 0..=MAX_PLACE)?;
    check_range(y.into(), 0..=MAX_PLACE)
}

fn check_gap(gap: u16) -> Result<(), Fault>
    ensures { Checked (gap_check gap ∷ []) result }
{
    check_range(gap.into(), 1..=MAX_GAP)
}

// Whether a table that may hold so many entries has room for one more.
fn check_room<T: Copy>(table: &Filled<T>, most: usize) -> Result<(), Fault>
    ensures { Checked (room_check (length table.now.used) (length table.now.free) most ∷ []) result }
{
    faults::check_room(table.len(), table.capacity().min(most))
}

// Whether a table has an entry of this number.
fn check_number<T: Copy>(table: &Filled<T>, number: u16, missing: Fault) -> Result<(), Fault>
    ensures { Checked (if_fails (length table.now.used ≤ number) missing ∷ []) result }
{
    if (number as usize) < table.len() {
        Ok(())
    } else {
        Err(missing)
    }
}

impl<G: Grade> Board<'_, G> {
    fn check_untaken(&self, point: Point) -> Result<(), Fault>
        ensures { Checked (taken_check (view_of self.now).points point ∷ []) result }
    {
        match self.points.as_slice().iter().position(|p| *p == point) {
            Some(i) => Err(Fault::Taken(i as u64)),
            None => Ok(()),
        }
    }

    // Every check of a new point, in order.
    pub(crate) fn check_new_point(&self, point: Point) -> Result<(), Fault>
        ensures { Checked (point_checks (view_of self.now) point) result }
    {
        check_room(&self.points, MAX_POINTS)?;
        check_place(point.x, point.y)?;
        let _ = self.stackup.signal_layer(point.layer)?;
        self.check_untaken(point)
    }

    pub(crate) fn check_point(&self, point: u16) -> Result<(), Fault>
        ensures { Checked (point_check (view_of self.now) point ∷ []) result }
    {
        check_number(&self.points, point, Fault::NoPoint(point))
    }

    pub(crate) fn check_link(&self, link: u16) -> Result<(), Fault>
        ensures { Checked (link_check (view_of self.now) link ∷ []) result }
    {
        check_number(&self.links, link, Fault::NoLink(link))
    }

    // The first of two ends that is not on the board is told.
    fn check_ends(&self, from: u16, to: u16) -> Result<(), Fault>
        ensures { Checked (ends_check (view_of self.now) from to ∷ []) result }
    {
        self.check_point(from)?;
        self.check_point(to)
    }

    // The checks that a track and a via share, in order.
    pub(crate) fn check_join(&self, join: Join) -> Result<(), Fault>
        ensures { Checked (join_checks (view_of self.now) join.from join.to join.gap) result }
    {
        check_room(&self.links, MAX_LINKS)?;
        check_gap(join.gap)?;
        self.check_ends(join.from, join.to)
    }
}
