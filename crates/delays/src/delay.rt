// The least delay to each point within the bound.
ghost use Rattle.std.specs.Prelude.{◌≡◌, ◌+◌, ◌<◌, ◌≤◌, true, length};
ghost use Rattle.queues.specs.Slots.{NoneWaits};
ghost use Rattle.tables.specs.Tables.{Ends, open_end, reached_at};
ghost use Rattle.tables.specs.Tallies.{tally};
ghost use Rattle.delays.specs.Delays.{DelayOffered, LinkTried, Fresh, Front, Least, SameReached, Beyond};

use grades::Grade;
use grades::key::Key;
use queues::queue::Queue;
use queues::slot::Offer;
use tables::plan::Plan;
use tables::table::{Link, Outcome};
use tables::task::Task;

// Offers the point `to` at the delay `total`, unless it is reached or too far.
fn offer_delay<G: Grade, Q: Queue<G>>(
    bound: u32,
    outcomes: &mut [Outcome],
    queue: &mut Q,
    to: usize,
    total: u64,
)
    requires outcomes_room { to < length outcomes.old }
    requires slots_room { to < length (Q.Queue.model queue.old).slots }
    ensures offered { DelayOffered G.Order.as_good G.Grade.initial bound to total outcomes.old (Q.Queue.model queue.old).slots outcomes.new (Q.Queue.model queue.new).slots }
    ensures number { (Q.Queue.model queue.new).taken ≡ (Q.Queue.model queue.old).taken }
{
    if total > bound as u64 {
        return;
    }
    if outcomes[to].reached {
        return;
    }
    let delay = total as u32;
    if let Offer::Changed = queue.offer(to, &Key::at_start(delay)) {
        outcomes[to] = Outcome {
            delay,
            given: 0,
            reached: false,
        };
    }
}

// Offers the point that the link leads to from `from`, where a walk is after `delay`, if the link is open and has an end there.
fn try_link<G: Grade, Q: Queue<G>>(
    plan: Plan,
    link: &Link,
    outcomes: &mut [Outcome],
    queue: &mut Q,
    from: usize,
    delay: u32,
)
    requires ends { Ends plan.points link.now }
    requires outcomes_room { plan.points ≤ length outcomes.old }
    requires slots_room { plan.points ≤ length (Q.Queue.model queue.old).slots }
    ensures tried { LinkTried G.Order.as_good G.Grade.initial plan.bound (open_end link.now from) (delay + link.now.delay) outcomes.old (Q.Queue.model queue.old).slots outcomes.new (Q.Queue.model queue.new).slots }
    ensures number { (Q.Queue.model queue.new).taken ≡ (Q.Queue.model queue.old).taken }
{
    if let Some(to) = link.open_end(from) {
        let total = delay as u64 + link.delay as u64;
        offer_delay(plan.bound, outcomes, queue, to, total);
    }
}

// Tries each link from the point `from`, in number order.
fn relax<G: Grade, Q: Queue<G>>(task: Task, outcomes: &mut [Outcome], queue: &mut Q, from: usize)
    requires outcomes_room { task.plan.points ≤ length outcomes.old }
    requires slots_room { task.plan.points ≤ length (Q.Queue.model queue.old).slots }
    requires from_within { from < task.plan.points }
    requires from_reached { reached_at outcomes.old from ≡ true }
    requires front { Front G.Grade.initial task.links.now task.plan.points task.plan.source task.plan.bound from 0 outcomes.old (Q.Queue.model queue.old).slots }
    ensures front { Front G.Grade.initial task.entry.links.now task.entry.plan.points task.entry.plan.source task.entry.plan.bound from (length task.entry.links.now) outcomes.new (Q.Queue.model queue.new).slots }
    ensures slots { length (Q.Queue.model queue.new).slots ≡ length (Q.Queue.model queue.old).slots }
    ensures reached { SameReached outcomes.old outcomes.new }
    ensures number { (Q.Queue.model queue.new).taken ≡ (Q.Queue.model queue.old).taken }
    ensures rest { Beyond task.entry.plan.points outcomes.old outcomes.new }
{
    let delay = outcomes[from].delay;
    for link in task.links {
        try_link(task.plan, link, outcomes, queue, from, delay);
    }
}

// Finds the least delay of each point within the bound, and says how many there are.
pub fn least_delays<G: Grade, Q: Queue<G>>(
    task: Task,
    outcomes: &mut [Outcome],
    queue: &mut Q,
) -> usize
    requires outcomes_room { task.plan.points ≤ length outcomes.old }
    requires slots_room { task.plan.points ≤ length (Q.Queue.model queue.old).slots }
    requires fresh { Fresh task.plan.points outcomes.old (Q.Queue.model queue.old).slots }
    requires none_taken { (Q.Queue.model queue.old).taken ≡ 0 }
    ensures least { Least task.entry.links.now task.entry.plan.points task.entry.plan.source task.entry.plan.bound outcomes.new }
    ensures idle { NoneWaits (Q.Queue.model queue.new).slots }
    ensures slots { length (Q.Queue.model queue.new).slots ≡ length (Q.Queue.model queue.old).slots }
    ensures reached { result ≡ tally (reached_at outcomes.new) task.entry.plan.points }
    ensures number { (Q.Queue.model queue.new).taken ≡ result }
    ensures rest { Beyond task.entry.plan.points outcomes.old outcomes.new }
{
    let plan = task.plan;
    let mut reached = 0;
    offer_delay(plan.bound, outcomes, queue, plan.source, 0);
    while let Some(point) = queue.take() {
        outcomes[point].reached = true;
        reached += 1;
        relax(task, outcomes, queue, point);
    }
    reached
}
