// The links that may join two points.
ghost use Rattle.std.specs.Prelude.{◌≡◌, ◌<◌, true, false, length, MatchOption};
ghost use Rattle.board.specs.Edits.{JoinsTrack, JoinsVia, in_line, track_length, track_on, via_over};
ghost use Rattle.board.specs.Points.{point_at};
ghost use Rattle.board.specs.Views.{view_of};

use crate::board::Board;
use crate::point::Point;
use faults::Fault;
use grades::{Grade, LinkCost};
use stackup::layer::{Layer, Span};
use tables::table::Link;

// What a link is to join, by number, and its gap.
#[derive(Clone, Copy)]
pub(crate) struct Join {
    pub(crate) from: u16,
    pub(crate) to: u16,
    pub(crate) gap: u16,
}

// The length of a track, if two points of one layer share x or y.
fn track_length(p: Point, q: Point) -> Option<u32>
    ensures { MatchOption result (in_line p q ≡ false) (λ len. (in_line p q ≡ true) × (len ≡ track_length p q) × (len < 65536)) }
{
    if p.layer == q.layer && (p.x == q.x || p.y == q.y) {
        Some(u32::from(p.x.abs_diff(q.x)) + u32::from(p.y.abs_diff(q.y)))
    } else {
        None
    }
}

// An open track of so many steps on a layer.
fn track_on(layer: Layer, length: u32, join: Join) -> Link
    requires { length < 65536 }
    ensures { result ≡ track_on layer length join.from join.to join.gap }
{
    let cost = LinkCost {
        price: length * layer.price_rate as u32,
        gap: join.gap,
    };
    Link {
        delay: length * layer.delay_rate as u32,
        cost,
        from: join.from,
        to: join.to,
        open: true,
    }
}

// An open via over a span.
fn via_over(span: Span, join: Join) -> Link
    ensures { result ≡ via_over span join.from join.to join.gap }
{
    let cost = LinkCost {
        price: span.price,
        gap: join.gap,
    };
    Link {
        delay: span.delay,
        cost,
        from: join.from,
        to: join.to,
        open: true,
    }
}

impl<G: Grade> Board<'_, G> {
    fn point_at(&self, point: u16) -> Point
        requires { point < length self.now.points.used }
        ensures { result ≡ point_at (view_of self.now).points point }
    {
        self.points.as_slice()[point as usize]
    }

    // The track between two points of the board, if one may join them.
    pub(crate) fn track_between(&self, join: Join) -> Result<Link, Fault>
        requires from { join.from < length self.now.points.used }
        requires to { join.to < length self.now.points.used }
        ensures { JoinsTrack (view_of self.now).stack (view_of self.now).points join.from join.to join.gap result }
    {
        if join.from == join.to {
            return Err(Fault::NotJoinable(join.to));
        }
        let p = self.point_at(join.from);
        let q = self.point_at(join.to);
        let length = track_length(p, q).ok_or(Fault::NotJoinable(join.to))?;
        let layer = self.stackup.layer(p.layer);
        Ok(track_on(layer, length, join))
    }

    // The via between two points of the board, if one may join them.
    pub(crate) fn via_between(&self, join: Join) -> Result<Link, Fault>
        requires from { join.from < length self.now.points.used }
        requires to { join.to < length self.now.points.used }
        ensures { JoinsVia (view_of self.now).stack.spans (view_of self.now).points join.from join.to join.gap result }
    {
        let p = self.point_at(join.from);
        let q = self.point_at(join.to);
        if p.x != q.x || p.y != q.y {
            return Err(Fault::NotJoinable(join.to));
        }
        let span = self
            .stackup
            .span(p.layer.min(q.layer), p.layer.max(q.layer))
            .ok_or(Fault::NotJoinable(join.to))?;
        Ok(via_over(span, join))
    }
}
