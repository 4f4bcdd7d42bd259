// Walking over a link.
ghost use Rattle.std.specs.Prelude.{◌≡◌};
ghost use Rattle.tables.specs.Tables.{other_end, open_end};

use crate::table::Link;

impl Link {
    // Where a walk from `point` comes by this link, if it has an end there.
    pub fn other_end(&self, point: usize) -> Option<usize>
        ensures { result ≡ other_end self.now point }
    {
        if self.from as usize == point {
            Some(self.to as usize)
        } else if self.to as usize == point {
            Some(self.from as usize)
        } else {
            None
        }
    }

    // The same, if the link is open.
    pub fn open_end(&self, point: usize) -> Option<usize>
        ensures { result ≡ open_end self.now point }
    {
        if self.open {
            self.other_end(point)
        } else {
            None
        }
    }
}
