// Memory that is lent, of which the first entries are in use.
#![tactic(auto)]

ghost use Rattle.std.specs.Prelude.{◌≡◌, ◌+◌, ◌<◌, [], ◌∷◌, ◌++◌, length, drop, slice_set};

use std::marker::Model;

// A table over lent memory. The first `count` entries are in use, and the others are free.
#[derive(Drop)]
pub struct Filled<'t, T> {
    memory: &'t mut [T],
    count: usize,
}

impl<'t, T> Model for Filled<'t, T> {
    ghost use Rattle.std.specs.Prelude.{◌≤◌, length, take, drop};
    ghost use Rattle.lent.specs.Entries.{Entries};

    ghost Value = { Entries T };

    ghost view = { λ f. record { used = take f.count f.memory.now; free = drop f.count f.memory.now } };

    ghost invariant = { λ f. f.count ≤ length f.memory.now };
}

impl<'t, T: Copy> Filled<'t, T> {
    // No entry is in use, whatever the memory holds.
    pub fn new(memory: &'t mut [T]) -> Filled<'t, T>
        ensures { result ≡ record { used = []; free = memory.old } }
    {
        Filled { memory, count: 0 }
    }

    pub fn len(&self) -> usize
        ensures { result ≡ length self.now.used }
    {
        self.as_slice().len()
    }

    // How many entries the memory has.
    pub fn capacity(&self) -> usize
        ensures { result ≡ length self.now.used + length self.now.free }
    {
        self.memory.len()
    }

    // The entries in use.
    pub fn as_slice(&self) -> &[T]
        ensures { result.now ≡ self.now.used }
    {
        &self.memory[..self.count]
    }

    // Puts an entry under the next number. Where no place is free, nothing changes.
    pub fn push(&mut self, entry: T)
        ensures pushed { 0 < length self.old.free → self.new ≡ record { used = self.old.used ++ entry ∷ []; free = drop 1 self.old.free } }
        ensures full { length self.old.free ≡ 0 → self.new ≡ self.old }
    {
        if self.count < self.capacity() {
            self.memory[self.count] = entry;
            self.count += 1;
        }
    }

    // Changes an entry in use. Where none has the number, nothing changes.
    pub fn set(&mut self, number: usize, entry: T)
        ensures { self.new ≡ record { used = slice_set self.old.used number entry; free = self.old.free } }
    {
        let used = &mut self.memory[..self.count];
        if number < used.len() {
            used[number] = entry;
        }
    }
}

#[cfg(test)]
mod tests {
    use super::Filled;
    use std::test::Fail;

    #[test]
    fn fills_from_the_front(rt: HostRuntime) -> Result<(), Fail> {
        let mut memory = [0u16; 3];
        let mut table = Filled::new(&mut memory);
        table.push(7);
        table.push(8);
        table.set(0, 9);
        assert_eq!(rt; table.len(), 2);
        assert_eq!(rt; table.capacity(), 3);
        assert!(rt; table.as_slice() == [9, 8].as_slice());
        table.push(6);
        table.push(5);
        table.set(3, 4);
        assert!(rt; table.as_slice() == [9, 8, 6].as_slice());
        Ok(())
    }
}
