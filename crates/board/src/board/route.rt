// Searching a board, and reading the routes that it found.
ghost use Rattle.std.specs.Prelude.{◌≡◌, length};
ghost use Rattle.board.specs.Routes.{Searches, Reads, ReadsBy, Untouched};
ghost use Rattle.board.specs.Views.{view_of};

use crate::board::Board;
use faults::Fault;
use grades::Grade;
use grades::key::Key;
use queues::queue::Queue;
use search::read::{Traces, given_bucket};
use search::run::search;
use tables::net::Net;
use tables::plan::{Plan, Query};
use tables::table::{Found, Mark};

impl<G: Grade> Board<'_, G> {
    // Finds the best route to each point within the bound, and answers with the width, the points reached and the number taken.
    pub fn search<Q: Queue<G>>(
        &mut self,
        queue: &mut Q,
        source: u16,
        bound: u32,
        tolerance: u16,
    ) -> Result<Found, Fault>
        ensures searches { Searches G.Grade.initial (view_of self.old) (length (Q.Queue.model queue.old).slots) source bound tolerance result (view_of self.new) (Q.Queue.model queue.new) }
        ensures queue { Untouched result queue.old queue.new }
        ensures slots { length (Q.Queue.model queue.new).slots ≡ length (Q.Queue.model queue.old).slots }
    {
        let net = Net {
            points: self.points.len(),
            links: self.links.as_slice(),
        };
        let query = Query {
            source,
            bound,
            tolerance,
        };
        let (plan, found) = search(net, self.labels, self.outcomes, queue, query)?;
        self.set_standing(Some(plan));
        Ok(found)
    }

    // Reads by the figures of the search that stands.
    fn read_by(&self, plan: Plan, point: u16, list: &mut [u16]) -> Result<Key<G>, Fault>
        ensures { ReadsBy G.Grade.initial (view_of self.now) plan point list.old result list.new }
    {
        let traces = Traces {
            links: self.links.as_slice(),
            labels: self.labels,
            buckets: plan.buckets,
        };
        let bucket = given_bucket(self.outcomes, point);
        let label = traces.label_at(point, bucket);
        let Mark::Kept = label.mark else {
            return Err(Fault::NoRoute(point));
        };
        traces.write_trail(point, bucket, label.key.count, list)?;
        Ok(label.key)
    }

    // Writes the links of the route given at a point, source first, and answers with its grade, delay and count.
    pub fn read(&self, point: u16, list: &mut [u16]) -> Result<Key<G>, Fault>
        ensures { Reads G.Grade.initial (view_of self.now) point list.old result list.new }
    {
        self.check_point(point)?;
        let plan = self.standing.ok_or(Fault::NotSearched)?;
        self.read_by(plan, point, list)
    }
}
