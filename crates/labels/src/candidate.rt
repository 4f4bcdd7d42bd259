// Candidates: labels that may be chosen at their place.
ghost use Rattle.std.specs.Prelude.{◌≡◌, cond, ◌+◌, ◌<◌, length, set};
ghost use Rattle.labels.specs.Candidates.{extended, ahead_of, chosen_over, improves_on};
ghost use Rattle.tables.specs.Tables.{label_at};

use grades::key::Key;
use grades::{Grade, Order};
use tables::table::{Label, Link, Mark};

// The label of the route that goes on from a label in `bucket` by link number `number`.
pub fn extension<G: Grade>(
    label: Label<G>,
    bucket: u32,
    number: u16,
    link: Link,
    delay: u32,
) -> Label<G>
    requires { delay ≡ label.key.delay + link.delay }
    ensures { result ≡ extended G.Grade.after label bucket number link }
{
    let key = Key {
        grade: label.key.grade.step(link.cost),
        delay,
        // a kept route visits no point twice, so the count never comes near the limit
        count: label.key.count.saturating_add(1),
    };
    Label {
        key,
        earlier: bucket,
        link: number,
        mark: Mark::Waiting,
    }
}

// Whether the first of two candidates is chosen: by its key, and by its link number between equals.
fn is_ahead<G: Grade>(new: Label<G>, old: Label<G>) -> bool
    ensures { result ≡ ahead_of G.Order.as_good new old }
{
    new.key.before(&old.key) || (!old.key.before(&new.key) && new.link < old.link)
}

// Whether the new label is chosen over what stands at its place.
fn chosen<G: Grade>(new: Label<G>, old: Label<G>) -> bool
    ensures { result ≡ chosen_over G.Order.as_good new old old.mark }
{
    match old.mark {
        Mark::Empty => true,
        Mark::Kept => false,
        Mark::Waiting => is_ahead(new, old),
        Mark::Dropped => false,
    }
}

// Puts a candidate at its place if it is chosen there, and says whether it was.
pub fn place_candidate<G: Grade>(labels: &mut [Label<G>], place: usize, new: Label<G>) -> bool
    requires { place < length labels.old }
    ensures chosen { result ≡ chosen_over G.Order.as_good new (label_at G.Grade.initial labels.old place) (label_at G.Grade.initial labels.old place).mark }
    ensures labels { labels.new ≡ cond result (set labels.old place new) labels.old }
{
    let old = labels[place];
    if chosen(new, old) {
        labels[place] = new;
        true
    } else {
        false
    }
}

// Whether the label is better than the last one kept at its point.
pub fn improves<G: Grade>(label: Label<G>, last: Label<G>) -> bool
    ensures { result ≡ improves_on G.Order.as_good label last last.mark }
{
    match last.mark {
        Mark::Kept => !last.key.grade.as_good(&label.key.grade),
        Mark::Empty | Mark::Waiting | Mark::Dropped => true,
    }
}
