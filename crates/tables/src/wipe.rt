// Clearing what earlier searches left.
ghost use Rattle.std.specs.Prelude.{◌≡◌, ◌≤◌, length};
ghost use Rattle.tables.specs.Tables.{empty_label, unreached_outcome, Wiped};

use crate::table::{Label, Mark, Outcome};
use grades::Grade;
use grades::key::Key;

// What a place without a label holds.
pub fn empty_label<G: Grade>() -> Label<G>
    ensures { result ≡ empty_label G.Grade.initial }
{
    Label {
        key: Key::at_start(0),
        earlier: 0,
        link: 0,
        mark: Mark::Empty,
    }
}

// The outcome of a point that is not reached.
pub fn unreached() -> Outcome
    ensures { result ≡ unreached_outcome }
{
    Outcome {
        delay: 0,
        given: 0,
        reached: false,
    }
}

// Makes the first `wanted` entries blank.
pub fn wipe<T: Copy>(table: &mut [T], wanted: usize, blank: T)
    requires { wanted ≤ length table.old }
    ensures { Wiped blank wanted table.old table.new }
{
    for entry in table[..wanted].iter_mut() {
        *entry = blank;
    }
}
