// The records of a board file, one after the other.
ghost use Rattle.std.specs.Prelude.{◌≡◌, ◌-◌, length};
ghost use Rattle.std.specs.Iterator.{at_most};
ghost use Rattle.boardfile.specs.declared.records.Stage.TheVariants.{Stackup};
ghost use Rattle.filerun.specs.Reading.{Comes};

use boardfile::decode::decode;
use boardfile::records::{Record, Stage};
use faults::Fault;

// What is left of a file. Each item is a record, or why there is none, with the byte place where it begins. A bad record
// is the last item.
#[derive(Drop)]
pub(crate) struct Records<'f> {
    file: &'f [u8],
    at: usize,
    stage: Stage,
}

impl<'f> Records<'f> {
    pub(crate) fn new(file: &'f [u8]) -> Records<'f>
        ensures file { result.file.now ≡ file.now }
        ensures start { result.at ≡ 0 }
        ensures stage { result.stage ≡ Stackup }
    {
        Records {
            file,
            at: 0,
            stage: Stage::Stackup,
        }
    }
}

impl<'f> Iterator for Records<'f> {
    type Item = (usize, Result<Record, Fault>);

    ghost next_gives = { Comes };

    ghost remaining = { λ s. at_most (length s.file.now - s.at) };

    fn next(&mut self) -> Option<(usize, Result<Record, Fault>)> {
        let at = self.at;
        if at >= self.file.len() {
            return None;
        }
        match decode(self.stage, self.file, at) {
            Ok((record, next)) => {
                self.at = next;
                if let Record::Close = record {
                    self.stage = Stage::Routing;
                }
                Some((at, Ok(record)))
            }
            Err(fault) => {
                self.at = self.file.len();
                Some((at, Err(fault)))
            }
        }
    }
}
