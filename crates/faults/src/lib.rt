// Why a call is refused: one fault for each check of the rules, with the figure that it tells.
#![tactic(auto)]

ghost use Rattle.std.specs.Prelude.{◌≡◌, ◌≤◌, [], ◌∷◌};
ghost use Rattle.std.specs.Range.{range_inclusive_start, range_inclusive_end};
ghost use Rattle.faults.specs.Checks.{Checked, if_fails, range_check};
ghost use Rattle.faults.specs.Faults.{number_of, figure_of};

use std::ops::RangeInclusive;

#[derive(Clone, Copy, PartialEq, Eq, Debug)]
pub enum Fault {
    // the table to be added to is full: what it can hold
    Full(u64),
    // a number lies outside its range: the number
    OutOfRange(u64),
    NoLayer(u8),
    PlaneLayer(u8),
    // the place or the pair of layers is taken: the earlier entry
    Taken(u64),
    NoPoint(u16),
    NoLink(u16),
    // two ends may not be joined: the second end
    NotJoinable(u16),
    // a table or the queue is too short: the places wanted
    TooShort(u64),
    NotSearched,
    NoRoute(u16),
    // the route list is too short: the count of links
    ListTooShort(u64),
    // a file record is bad: the byte place where it begins
    BadRecord(u64),
}

impl Fault {
    // The number of the check that failed.
    pub fn number(&self) -> u8
        ensures { result ≡ number_of self.now }
    {
        match self {
            Fault::Full(_) => 1,
            Fault::OutOfRange(_) => 2,
            Fault::NoLayer(_) => 3,
            Fault::PlaneLayer(_) => 4,
            Fault::Taken(_) => 5,
            Fault::NoPoint(_) => 6,
            Fault::NoLink(_) => 7,
            Fault::NotJoinable(_) => 8,
            Fault::TooShort(_) => 9,
            Fault::NotSearched => 10,
            Fault::NoRoute(_) => 11,
            Fault::ListTooShort(_) => 12,
            Fault::BadRecord(_) => 13,
        }
    }

    // The figure that goes with the number.
    pub fn figure(&self) -> u64
        ensures { result ≡ figure_of self.now }
    {
        match *self {
            Fault::Full(n) | Fault::OutOfRange(n) | Fault::Taken(n) => n,
            Fault::TooShort(n) | Fault::ListTooShort(n) | Fault::BadRecord(n) => n,
            Fault::NoLayer(l) | Fault::PlaneLayer(l) => u64::from(l),
            Fault::NoPoint(n) | Fault::NoLink(n) | Fault::NotJoinable(n) | Fault::NoRoute(n) =>
                u64::from(n),
            Fault::NotSearched => 0,
        }
    }
}

// Refuses one more entry where as many are used as there is room for.
pub fn check_room(used: usize, room: usize) -> Result<(), Fault>
    ensures { Checked (if_fails (room ≤ used) (Fault.Full room) ∷ []) result }
{
    if used < room {
        Ok(())
    } else {
        Err(Fault::Full(room as u64))
    }
}

// Refuses a number that lies outside its range.
pub fn check_range(value: u64, range: RangeInclusive<u64>) -> Result<(), Fault>
    ensures { Checked
        (range_check ((value, range_inclusive_start range, range_inclusive_end range) ∷ []) ∷ [])
        result }
{
    if value < *range.start() || value > *range.end() {
        return Err(Fault::OutOfRange(value));
    }
    Ok(())
}
