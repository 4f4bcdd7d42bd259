// One search over tables that are lent to it.
ghost use Rattle.std.specs.Prelude.{◌≡◌, ◌*◌, ◌≤◌, length};
ghost use Rattle.queues.specs.Slots.{cleared};
ghost use Rattle.search.specs.Results.{Searched};
ghost use Rattle.search.specs.Answers.{Admitted, Answered, Unmoved};
ghost use Rattle.tables.specs.Tables.{Wiped, empty_label, unreached_outcome};

use buckets::fill::fill_buckets;
use delays::delay::least_delays;
use faults::Fault;
use grades::Grade;
use queues::queue::Queue;
use tables::net::Net;
use tables::plan::{Plan, Query};
use tables::prepare::{check_room, prepare};
use tables::table::{Found, Label, Outcome};
use tables::task::Task;
use tables::wipe::{empty_label, unreached, wipe};

// Clears what an earlier search left in the tables and the queue.
fn reset<G: Grade, Q: Queue<G>>(
    plan: Plan,
    labels: &mut [Label<G>],
    outcomes: &mut [Outcome],
    queue: &mut Q,
)
    requires outcomes_room { plan.points ≤ length outcomes.old }
    requires labels_room { plan.points * plan.buckets ≤ length labels.old }
    ensures labels { Wiped (empty_label G.Grade.initial) (plan.points * plan.buckets) labels.old labels.new }
    ensures outcomes { Wiped unreached_outcome plan.points outcomes.old outcomes.new }
    ensures queue { Q.Queue.model queue.new ≡ cleared (Q.Queue.model queue.old) }
{
    wipe(labels, plan.places(), empty_label());
    wipe(outcomes, plan.points, unreached());
    queue.clear();
}

// The search itself, over tables that are large enough.
fn explore<G: Grade, Q: Queue<G>>(
    task: Task,
    labels: &mut [Label<G>],
    outcomes: &mut [Outcome],
    queue: &mut Q,
) -> Found
    requires few_links { length task.links.now ≤ 16384 }
    requires outcomes { task.plan.points ≤ length outcomes.old }
    requires slots { task.plan.points ≤ length (Q.Queue.model queue.old).slots }
    requires labels { task.plan.points * task.plan.buckets ≤ length labels.old }
    ensures width { result.width ≡ task.entry.plan.width }
    ensures searched { Searched G.Grade.initial task.entry.links.now task.entry.plan.points task.entry.plan.source task.entry.plan.bound task.entry.plan.buckets labels.old outcomes.old result.reached result.taken labels.new outcomes.new (Q.Queue.model queue.new) }
    ensures slots { length (Q.Queue.model queue.new).slots ≡ length (Q.Queue.model queue.old).slots }
{
    reset(task.plan, labels, outcomes, queue);
    let reached = least_delays(task, outcomes, queue);
    fill_buckets(task, labels, outcomes, queue);
    Found {
        width: task.plan.width,
        reached,
        taken: queue.taken(),
    }
}

// The figures of a search over tables of these lengths, or why it is refused.
#[tactic(auto, using(crate::proofs::Refusing::refused_plan))]
fn admit(
    net: Net,
    query: Query,
    outcomes: usize,
    slots: usize,
    labels: usize,
) -> Result<Plan, Fault>
    ensures { Admitted net.entry.points query.source query.bound query.tolerance outcomes slots labels result }
{
    let plan = prepare(net, query)?;
    check_room(plan, outcomes, slots, labels)?;
    Ok(plan)
}

// Searches from a source over the open links of a board, and answers with the search's figures and what it found.
pub fn search<G: Grade, Q: Queue<G>>(
    net: Net,
    labels: &mut [Label<G>],
    outcomes: &mut [Outcome],
    queue: &mut Q,
    query: Query,
) -> Result<(Plan, Found), Fault>
    ensures answered { Answered G.Grade.initial net.entry.links.now net.entry.points query.source query.bound query.tolerance labels.old outcomes.old (length (Q.Queue.model queue.old).slots) result labels.new outcomes.new (Q.Queue.model queue.new) }
    ensures queue { Unmoved result queue.old queue.new }
    ensures slots { length (Q.Queue.model queue.new).slots ≡ length (Q.Queue.model queue.old).slots }
{
    let (room, slots, places) = (outcomes.len(), queue.slots(), labels.len());
    let plan = admit(net, query, room, slots, places)?;
    let task = Task {
        plan,
        links: net.links,
    };
    let found = explore(task, labels, outcomes, queue);
    Ok((plan, found))
}
