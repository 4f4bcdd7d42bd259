// The single steps on labels.
ghost use Rattle.std.specs.Prelude.{◌≡◌, ◌+◌, ◌*◌, ◌<◌, ◌≤◌, length};
ghost use Rattle.labels.specs.Candidates.{extended};
ghost use Rattle.labels.specs.Steps.{Tried, Settled, OfferedIf, SweptIf};
ghost use Rattle.tables.specs.Tables.{label_at, outcome_at};

use crate::candidate::{extension, improves, place_candidate};
use grades::Grade;
use queues::queue::Queue;
use tables::place::Place;
use tables::plan::Plan;
use tables::table::{Label, Link, Mark, Outcome};
use tables::wipe::empty_label;

// The label at a place.
pub fn label_at<G: Grade>(labels: &[Label<G>], place: Place) -> Label<G>
    requires { place.plan.points * place.plan.buckets ≤ length labels.now }
    ensures { result ≡ label_at G.Grade.initial labels.now (place.point * place.plan.buckets + place.bucket) }
{
    let index = place.index();
    labels[index]
}

// Tries one open link from `label`, kept in `bucket`, to the point `to`.
pub fn try_link<G: Grade, Q: Queue<G>>(
    plan: Plan,
    labels: &mut [Label<G>],
    outcomes: &[Outcome],
    queue: &mut Q,
    bucket: u32,
    label: Label<G>,
    number: u16,
    link: Link,
    to: usize,
)
    requires labels_room { plan.points * plan.buckets ≤ length labels.old }
    requires to_within { to < plan.points }
    requires outcomes_room { plan.points ≤ length outcomes.now }
    ensures tried { Tried G.Order.as_good G.Grade.initial outcomes.now plan.buckets plan.ceiling plan.width bucket to (extended G.Grade.after label bucket number link) labels.old (Q.Queue.model queue.old).slots labels.new (Q.Queue.model queue.new).slots }
    ensures taken { (Q.Queue.model queue.new).taken ≡ (Q.Queue.model queue.old).taken }
{
    let total = label.key.delay as u64 + link.delay as u64;
    if total > plan.ceiling as u64 {
        return;
    }
    if !outcomes[to].reached {
        return;
    }
    let new = extension(label, bucket, number, link, total as u32);
    let at = plan.bucket(new.key.delay);
    let place = Place {
        plan,
        point: to,
        bucket: at,
    };
    if place_candidate(labels, place.index(), new) {
        if at == bucket {
            let _ = queue.offer(to, &new.key);
        }
    }
}

// Keeps or drops the label of the point just taken, and says whether it is kept.
pub fn settle<G: Grade>(place: Place, labels: &mut [Label<G>], outcomes: &mut [Outcome]) -> bool
    requires outcomes_room { place.plan.points ≤ length outcomes.old }
    requires labels_room { place.plan.points * place.plan.buckets ≤ length labels.old }
    requires given_upto { (outcome_at outcomes.old place.point).given ≤ place.bucket }
    ensures { Settled G.Order.as_good G.Grade.initial place.plan.buckets place.bucket place.point outcomes.old labels.old result outcomes.new labels.new }
{
    let given = Place {
        plan: place.plan,
        point: place.point,
        bucket: outcomes[place.point].given,
    };
    let label = label_at(labels, place);
    let last = label_at(labels, given);
    if improves(label, last) {
        labels[place.index()] = Label {
            mark: Mark::Kept,
            ..label
        };
        outcomes[place.point].given = place.bucket;
        true
    } else {
        labels[place.index()] = Label {
            mark: Mark::Dropped,
            ..label
        };
        false
    }
}

// Offers the point at its label's key if the label waits.
pub fn offer_waiting<G: Grade, Q: Queue<G>>(queue: &mut Q, point: usize, label: Label<G>)
    ensures offered { OfferedIf G.Order.as_good (Q.Queue.model queue.old).slots point label label.mark (Q.Queue.model queue.new).slots }
    ensures taken { (Q.Queue.model queue.new).taken ≡ (Q.Queue.model queue.old).taken }
{
    match label.mark {
        Mark::Waiting => {
            let _ = queue.offer(point, &label.key);
        }
        Mark::Empty | Mark::Kept | Mark::Dropped => {}
    }
}

// Makes the place of a dropped label blank, and writes nothing else.
pub fn sweep_label<G: Grade>(labels: &mut [Label<G>], place: Place)
    requires { place.plan.points * place.plan.buckets ≤ length labels.old }
    ensures { SweptIf G.Grade.initial labels.old (place.point * place.plan.buckets + place.bucket) (label_at G.Grade.initial labels.old (place.point * place.plan.buckets + place.bucket)).mark labels.new }
{
    let label = label_at(labels, place);
    match label.mark {
        Mark::Dropped => {
            labels[place.index()] = empty_label();
        }
        Mark::Empty | Mark::Kept | Mark::Waiting => {}
    }
}
