// Opening a board, and the edits.
ghost use Rattle.std.specs.Prelude.{◌≡◌, ◌<◌, true, false, length};
ghost use Rattle.stackup.specs.Views.{closed_of};
ghost use Rattle.board.specs.Boards.{new_board, with_standing};
ghost use Rattle.board.specs.Edits.{AddsPoint, AddsTrack, AddsVia, SetsMark, with_link};
ghost use Rattle.tables.specs.Tables.{Ends};
ghost use Rattle.board.specs.Views.{view_of};

use crate::board::Board;
use crate::board::join::Join;
use crate::point::Point;
use faults::Fault;
use grades::Grade;
use lent::Filled;
use stackup::stackup::ClosedStackup;
use tables::plan::Plan;
use tables::table::{Label, Link, Outcome};

impl<'t, G: Grade> Board<'t, G> {
    // A board with no points and no links, whatever the tables hold.
    pub fn open(
        stackup: ClosedStackup,
        points: &'t mut [Point],
        links: &'t mut [Link],
        labels: &'t mut [Label<G>],
        outcomes: &'t mut [Outcome],
    ) -> Board<'t, G>
        ensures { view_of result ≡ new_board (closed_of stackup) points.old links.old labels.old outcomes.old }
    {
        Board {
            stackup,
            points: Filled::new(points),
            links: Filled::new(links),
            labels,
            outcomes,
            standing: None,
        }
    }

    // Says which search stands from here on: an accepted edit ends it.
    pub(crate) fn set_standing(&mut self, standing: Option<Plan>)
        ensures { view_of self.new ≡ with_standing (view_of self.old) standing }
    {
        self.standing = standing;
    }

    // Adds a point, and answers with its number.
    pub fn add_point(&mut self, x: u16, y: u16, layer: u8) -> Result<u16, Fault>
        ensures { AddsPoint (view_of self.old) (record { x = x; y = y; layer = layer }) result (view_of self.new) }
    {
        let point = Point { x, y, layer };
        self.check_new_point(point)?;
        let number = self.points.len();
        self.points.push(point);
        self.set_standing(None);
        Ok(number as u16)
    }

    // Puts a link under the next number.
    fn push_link(&mut self, link: Link) -> u16
        requires room { 0 < length self.old.links.free }
        requires few { length self.old.links.used < 16384 }
        requires ends { Ends (length self.old.points.used) link }
        ensures number { result ≡ length (view_of self.old).links }
        ensures after { view_of self.new ≡ with_link (view_of self.old) link }
    {
        let number = self.links.len();
        self.links.push(link);
        self.set_standing(None);
        number as u16
    }

    // Adds a track between two points, and answers with its number.
    pub fn add_track(&mut self, from: u16, to: u16, gap: u16) -> Result<u16, Fault>
        ensures { AddsTrack (view_of self.old) from to gap result (view_of self.new) }
    {
        let join = Join { from, to, gap };
        self.check_join(join)?;
        let track = self.track_between(join)?;
        Ok(self.push_link(track))
    }

    // Adds a via between two points, and answers with its number.
    pub fn add_via(&mut self, from: u16, to: u16, gap: u16) -> Result<u16, Fault>
        ensures { AddsVia (view_of self.old) from to gap result (view_of self.new) }
    {
        let join = Join { from, to, gap };
        self.check_join(join)?;
        let via = self.via_between(join)?;
        Ok(self.push_link(via))
    }

    fn set_open(&mut self, link: u16, open: bool) -> Result<(), Fault>
        ensures { SetsMark (view_of self.old) link «open» result (view_of self.new) }
    {
        self.check_link(link)?;
        let number = link as usize;
        let changed = Link {
            open,
            ..self.links.as_slice()[number]
        };
        self.links.set(number, changed);
        self.set_standing(None);
        Ok(())
    }

    // Keeps routes off a link until it is freed.
    pub fn block(&mut self, link: u16) -> Result<(), Fault>
        ensures { SetsMark (view_of self.old) link false result (view_of self.new) }
    {
        self.set_open(link, false)
    }

    // Opens a link to routes again.
    pub fn free(&mut self, link: u16) -> Result<(), Fault>
        ensures { SetsMark (view_of self.old) link true result (view_of self.new) }
    {
        self.set_open(link, true)
    }
}
