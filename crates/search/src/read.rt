// The routes of labels.
ghost use Rattle.std.specs.Prelude.{◌≡◌, ℕ, ◌+◌, ◌*◌, ◌≤◌, ◌++◌, length, drop};
ghost use Rattle.search.specs.Trails.{end_before, trail, Writes};
ghost use Rattle.tables.specs.Tables.{label_at, outcome_at};

use faults::Fault;
use grades::Grade;
use tables::table::{Label, Link, Outcome};
use tables::wipe::empty_label;

// The bucket of the label given at a point.
pub fn given_bucket(outcomes: &[Outcome], point: u16) -> u32
    ensures { result ≡ (outcome_at outcomes.now point).given }
{
    outcomes.get(point as usize).map_or(0, |found| found.given)
}

// The end of a link that is not `point`.
fn end_before(links: &[Link], link: u16, point: u16) -> u16
    ensures { result ≡ end_before links.now link point }
{
    let Some(link) = links.get(link as usize) else {
        return 0;
    };
    if link.from == point {
        link.to
    } else {
        link.from
    }
}

// The labels that a search left, with so many places for each point, and the links that they name.
#[derive(Clone, Copy)]
pub struct Traces<'t, G> {
    pub links: &'t [Link],
    pub labels: &'t [Label<G>],
    pub buckets: u32,
}

impl<'t, G: Grade> Traces<'t, G> {
    // The label of a point in a bucket. A place that is not there holds no label.
    pub fn label_at(&self, point: u16, bucket: u32) -> Label<G>
        ensures { result ≡ label_at G.Grade.initial self.now.labels.now (point * self.now.buckets + bucket) }
    {
        let place = point as usize * self.buckets as usize + bucket as usize;
        self.labels.get(place).copied().unwrap_or(empty_label())
    }

    // Writes the last `count` links of the route of the label at (point, bucket), the earliest first.
    fn fill_trail(&self, point: u16, bucket: u32, count: usize, list: &mut [u16])
        requires { count ≤ length list.old }
        ensures { list.new ≡ trail G.Grade.initial self.now.links.now self.now.buckets self.now.labels.now point bucket count ++ drop count list.old }
    {
        let mut at = point;
        let mut within = bucket;
        let trail = &mut list[..count];
        for entry in trail.iter_mut() {
            let label = self.label_at(at, within);
            *entry = label.link;
            at = end_before(self.links, label.link, at);
            within = label.earlier;
        }
        trail.reverse();
    }

    // The same, if the list has a place for each.
    pub fn write_trail(
        &self,
        point: u16,
        bucket: u32,
        count: u32,
        list: &mut [u16],
    ) -> Result<(), Fault>
        ensures { Writes count (trail G.Grade.initial self.now.links.now self.now.buckets self.now.labels.now point bucket count) list.old result list.new }
    {
        if list.len() < count as usize {
            return Err(Fault::ListTooShort(count as u64));
        }
        self.fill_trail(point, bucket, count as usize, list);
        Ok(())
    }
}
