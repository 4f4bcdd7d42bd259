// One bucket of a planned search.
ghost use Rattle.std.specs.Prelude.{◌≡◌, ◌<◌, ◌≤◌, length};

use tables::place::Place;
use tables::task::Task;

// A search, and which of its buckets is filled.
#[derive(Clone, Copy)]
pub struct Bucket<'l> {
    pub task: Task<'l>,
    pub number: u32,
    ghost within: { number < task.plan.buckets },
    ghost few_links: { length task.links.now ≤ 16384 },
}

impl<'l> Bucket<'l> {
    // The place of a point in this bucket.
    pub fn place(self, point: usize) -> Place
        requires { point < self.task.plan.points }
        ensures plan { result.plan ≡ self.entry.task.plan }
        ensures point { result.point ≡ point }
        ensures bucket { result.bucket ≡ self.entry.number }
    {
        Place {
            plan: self.task.plan,
            point,
            bucket: self.number,
        }
    }
}
