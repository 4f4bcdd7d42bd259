// Where labels stand.
ghost use Rattle.std.specs.Prelude.{◌≡◌, ℕ, ◌+◌, ◌*◌, ◌<◌};

use crate::plan::Plan;

// A point of a planned search in one of its buckets. The table holds the buckets of a point one after the other.
#[derive(Clone, Copy)]
pub struct Place {
    pub plan: Plan,
    pub point: usize,
    pub bucket: u32,
    ghost known: { point < plan.points },
    ghost within: { bucket < plan.buckets },
}

impl Place {
    // The number of the place in the label table.
    pub fn index(self) -> usize
        ensures number { result ≡ self.point * self.plan.buckets + self.bucket }
        ensures wanted { result < self.plan.points * self.plan.buckets }
    {
        self.point * self.plan.buckets as usize + self.bucket as usize
    }
}
