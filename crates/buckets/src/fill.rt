// The labels, bucket by bucket of delay.
ghost use Rattle.std.specs.Prelude.{◌≡◌, ℕ, ◌+◌, ◌*◌, ◌<◌, ◌≤◌, length, slice_set};
ghost use Rattle.buckets.specs.Buckets.{label_in, closed_in, SameOpen, Loaded, Filling, Taking, Ready, Swept};
ghost use Rattle.buckets.specs.Results.{Frame, KeptOrBlank, Chained, GivenKept};
ghost use Rattle.labels.specs.Steps.{OfferedIf, marked};
ghost use Rattle.queues.specs.Slots.{NoneWaits};
ghost use Rattle.tables.specs.Tables.{label_at, outcome_at, empty_label};
ghost use Rattle.tables.specs.Tallies.{tally};
ghost use Rattle.tables.specs.declared.table.Mark.TheVariants.{Kept, Waiting};

use crate::bucket::Bucket;
use grades::Grade;
use labels::step::{label_at, offer_waiting, settle, sweep_label, try_link};
use queues::queue::Queue;
use tables::place::Place;
use tables::plan::Plan;
use tables::table::{Label, Mark, Outcome};
use tables::task::Task;
use tables::wipe::empty_label;

// Extends the kept label of `point` by each of its open links, in number order.
fn expand<G: Grade, Q: Queue<G>>(
    bucket: Bucket,
    labels: &mut [Label<G>],
    outcomes: &[Outcome],
    queue: &mut Q,
    point: usize,
)
    requires outcomes_room { bucket.task.plan.points ≤ length outcomes.now }
    requires labels_room { bucket.task.plan.points * bucket.task.plan.buckets ≤ length labels.old }
    requires point_within { point < bucket.task.plan.points }
    requires kept { (label_in G.Grade.initial bucket.task.plan labels.old point bucket.number).mark ≡ Kept }
    requires filling { Filling G.Grade.initial bucket.task bucket.number outcomes.now labels.old (Q.Queue.model queue.old).slots }
    ensures filling { Filling G.Grade.initial bucket.entry.task bucket.entry.number outcomes.now labels.new (Q.Queue.model queue.new).slots }
    ensures same { SameOpen G.Grade.initial bucket.entry.task.plan bucket.entry.number labels.old labels.new }
    ensures slots { length (Q.Queue.model queue.new).slots ≡ length (Q.Queue.model queue.old).slots }
    ensures frame { Frame G.Grade.initial bucket.entry.task.plan outcomes.now labels.old outcomes.now labels.new }
{
    let label = label_at(labels, bucket.place(point));
    for (number, link) in bucket.task.links.iter().enumerate() {
        if let Some(to) = link.open_end(point) {
            try_link(
                bucket.task.plan,
                labels,
                outcomes,
                queue,
                bucket.number,
                label,
                number as u16,
                *link,
                to,
            );
        }
    }
}

// Offers the point of a place if its label there waits.
fn offer_point<G: Grade, Q: Queue<G>>(place: Place, labels: &[Label<G>], queue: &mut Q)
    requires { place.plan.points * place.plan.buckets ≤ length labels.now }
    ensures { OfferedIf G.Order.as_good (Q.Queue.model queue.old).slots place.point (label_in G.Grade.initial place.plan labels.now place.point place.bucket) (label_in G.Grade.initial place.plan labels.now place.point place.bucket).mark (Q.Queue.model queue.new).slots }
{
    let label = label_at(labels, place);
    offer_waiting(queue, place.point, label);
}

// Offers each point that has a candidate in this bucket.
fn load_bucket<G: Grade, Q: Queue<G>>(plan: Plan, labels: &[Label<G>], queue: &mut Q, bucket: u32)
    requires labels_room { plan.points * plan.buckets ≤ length labels.now }
    requires bucket_within { bucket < plan.buckets }
    requires none_waits { NoneWaits (Q.Queue.model queue.old).slots }
    requires slots_room { plan.points ≤ length (Q.Queue.model queue.old).slots }
    ensures loaded { Loaded G.Grade.initial plan bucket plan.points labels.now (Q.Queue.model queue.new).slots }
    ensures slots { length (Q.Queue.model queue.new).slots ≡ length (Q.Queue.model queue.old).slots }
{
    for point in 0..plan.points {
        let place = Place {
            plan,
            point,
            bucket,
        };
        offer_point(place, labels, queue);
    }
}

// Settles the label of the point just taken, and extends it if it is kept.
fn settle_and_expand<G: Grade, Q: Queue<G>>(
    bucket: Bucket,
    labels: &mut [Label<G>],
    outcomes: &mut [Outcome],
    queue: &mut Q,
    point: usize,
)
    requires outcomes_room { bucket.task.plan.points ≤ length outcomes.old }
    requires labels_room { bucket.task.plan.points * bucket.task.plan.buckets ≤ length labels.old }
    requires taking { Taking G.Grade.initial bucket.task bucket.number point outcomes.old labels.old (Q.Queue.model queue.old).slots }
    ensures filling { Filling G.Grade.initial bucket.entry.task bucket.entry.number outcomes.new labels.new (Q.Queue.model queue.new).slots }
    ensures tally { tally (closed_in G.Grade.initial bucket.entry.task.plan bucket.entry.number labels.new) bucket.entry.task.plan.points ≡ tally (closed_in G.Grade.initial bucket.entry.task.plan bucket.entry.number labels.old) bucket.entry.task.plan.points + 1 }
    ensures slots { length (Q.Queue.model queue.new).slots ≡ length (Q.Queue.model queue.old).slots }
    ensures frame { Frame G.Grade.initial bucket.entry.task.plan outcomes.old labels.old outcomes.new labels.new }
{
    if settle(bucket.place(point), labels, outcomes) {
        expand(bucket, labels, outcomes, queue, point);
    }
}

// Takes and settles until no point waits.
fn drain_bucket<G: Grade, Q: Queue<G>>(
    bucket: Bucket,
    labels: &mut [Label<G>],
    outcomes: &mut [Outcome],
    queue: &mut Q,
)
    requires outcomes_room { bucket.task.plan.points ≤ length outcomes.old }
    requires labels_room { bucket.task.plan.points * bucket.task.plan.buckets ≤ length labels.old }
    requires filling { Filling G.Grade.initial bucket.task bucket.number outcomes.old labels.old (Q.Queue.model queue.old).slots }
    ensures filling { Filling G.Grade.initial bucket.entry.task bucket.entry.number outcomes.new labels.new (Q.Queue.model queue.new).slots }
    ensures idle { NoneWaits (Q.Queue.model queue.new).slots }
    ensures slots { length (Q.Queue.model queue.new).slots ≡ length (Q.Queue.model queue.old).slots }
    ensures frame { Frame G.Grade.initial bucket.entry.task.plan outcomes.old labels.old outcomes.new labels.new }
{
    while let Some(point) = queue.take() {
        settle_and_expand(bucket, labels, outcomes, queue, point);
    }
}

// Removes the labels that were dropped in this bucket.
fn sweep_bucket<G: Grade>(bucket: Bucket, labels: &mut [Label<G>])
    requires { bucket.task.plan.points * bucket.task.plan.buckets ≤ length labels.old }
    ensures { Swept G.Grade.initial bucket.entry.task.plan bucket.entry.number bucket.entry.task.plan.points labels.old labels.new }
{
    for point in 0..bucket.task.plan.points {
        sweep_label(labels, bucket.place(point));
    }
}

// Settles every place of one bucket.
fn fill_bucket<G: Grade, Q: Queue<G>>(
    bucket: Bucket,
    labels: &mut [Label<G>],
    outcomes: &mut [Outcome],
    queue: &mut Q,
)
    requires outcomes_room { bucket.task.plan.points ≤ length outcomes.old }
    requires labels_room { bucket.task.plan.points * bucket.task.plan.buckets ≤ length labels.old }
    requires ready { Ready G.Grade.initial bucket.task bucket.number outcomes.old labels.old (Q.Queue.model queue.old).slots }
    ensures done { Ready G.Grade.initial bucket.entry.task (bucket.entry.number + 1) outcomes.new labels.new (Q.Queue.model queue.new).slots }
    ensures slots { length (Q.Queue.model queue.new).slots ≡ length (Q.Queue.model queue.old).slots }
    ensures frame { Frame G.Grade.initial bucket.entry.task.plan outcomes.old labels.old outcomes.new labels.new }
{
    load_bucket(bucket.task.plan, labels, queue, bucket.number);
    drain_bucket(bucket, labels, outcomes, queue);
    sweep_bucket(bucket, labels);
}

// Gives the source the label of the empty route.
fn put_source<G: Grade>(plan: Plan, labels: &mut [Label<G>])
    requires { plan.points * plan.buckets ≤ length labels.old }
    ensures { labels.new ≡ slice_set labels.old (plan.source * plan.buckets + 0) (marked Waiting (empty_label G.Grade.initial)) }
{
    let first = Place {
        plan,
        point: plan.source,
        bucket: 0,
    };
    labels[first.index()] = Label {
        mark: Mark::Waiting,
        ..empty_label()
    };
}

// Gives the source the label of the empty route, and fills the buckets in turn.
pub fn fill_buckets<G: Grade, Q: Queue<G>>(
    task: Task,
    labels: &mut [Label<G>],
    outcomes: &mut [Outcome],
    queue: &mut Q,
)
    requires few_links { length task.links.now ≤ 16384 }
    requires outcomes_room { task.plan.points ≤ length outcomes.old }
    requires labels_room { task.plan.points * task.plan.buckets ≤ length labels.old }
    requires slots_room { task.plan.points ≤ length (Q.Queue.model queue.old).slots }
    requires none_waits { NoneWaits (Q.Queue.model queue.old).slots }
    requires blank { (q : ℕ) → q < task.plan.points * task.plan.buckets → label_at G.Grade.initial labels.old q ≡ empty_label G.Grade.initial }
    requires none_given { (v : ℕ) → v < task.plan.points → (outcome_at outcomes.old v).given ≡ 0 }
    ensures idle { NoneWaits (Q.Queue.model queue.new).slots }
    ensures slots { length (Q.Queue.model queue.new).slots ≡ length (Q.Queue.model queue.old).slots }
    ensures given { (v : ℕ) → v < task.entry.plan.points → (outcome_at outcomes.new v).given < task.entry.plan.buckets }
    ensures frame { Frame G.Grade.initial task.entry.plan outcomes.old labels.old outcomes.new labels.new }
    ensures settled { KeptOrBlank G.Grade.initial task.entry.plan.points task.entry.plan.buckets labels.new }
    ensures chained { Chained G.Grade.initial task.entry.links.now task.entry.plan.points task.entry.plan.buckets labels.new }
    ensures given_kept { GivenKept G.Grade.initial task.entry.plan.points task.entry.plan.buckets outcomes.new labels.new }
{
    put_source(task.plan, labels);
    for number in 0..task.plan.buckets {
        fill_bucket(Bucket { task, number }, labels, outcomes, queue);
    }
}
