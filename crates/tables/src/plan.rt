// What a search is asked, and its figures.
ghost use Rattle.std.specs.Prelude.{◌≡◌, ℕ, ◌+◌, ◌-◌, ◌*◌, ◌/◌, ◌<◌, ◌≤◌};
ghost use Rattle.tables.specs.Plans.{buckets_of};

// What a search is asked: a route to each point from the source, within the bound, which labels may pass by so many thousandths.
#[derive(Clone, Copy)]
pub struct Query {
    pub source: u16,
    pub bound: u32,
    pub tolerance: u16,
}

// The points on the board, where the search begins, and how delays are cut into buckets.
#[derive(Clone, Copy)]
pub struct Plan {
    pub points: usize,
    pub source: usize,
    pub bound: u32,
    pub ceiling: u32,
    pub width: u32,
    pub buckets: u32,
    ghost few: { points ≤ 4096 },
    ghost started: { source < points },
    ghost wide: { 0 < width },
    ghost low: { ceiling ≤ 100000000 },
    ghost cut: { buckets ≡ buckets_of ceiling width },
    ghost room: { bound + (points - 1) * (width - 1) ≤ ceiling },
}

impl Plan {
    // The label places that the search wants.
    pub fn places(self) -> usize
        ensures { result ≡ self.points * self.buckets }
    {
        self.points * self.buckets as usize
    }

    // The bucket of a delay.
    pub fn bucket(self, delay: u32) -> u32
        requires { delay ≤ self.ceiling }
        ensures number { result ≡ delay / self.width }
        ensures within { result < self.buckets }
    {
        delay / self.width
    }
}
