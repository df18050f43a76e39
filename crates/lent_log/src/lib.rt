//! A list over lent places: the first `len` of them are in use, and it grows only at its end.
#![tactic(auto)]

ghost use Rattle.std.specs.Prelude.{◌≡◌, ◌≤◌, [], length, ◌==◌, is_ok, is_some, IfErr};

#[derive(Debug, Drop)]
pub struct Log<'a, T> {
    slots: &'a mut [T],
    len: usize,
    // No more are in use than there are.
    ghost within: { len ≤ length slots.now },
}

impl<'a, T: Copy> Log<'a, T> {
    ghost use Rattle.lent_log.specs.Entries.{entries_of, size_of, room_of, entry_at};
    ghost use Rattle.lent_log.specs.Changes.{Made, Pushed, Replaced};

    /// An empty log. The places keep what they hold, which is not read.
    pub fn new(slots: &'a mut [T]) -> Log<'a, T>
        ensures { Made slots.entry result }
    {
        Log { slots, len: 0 }
    }

    /// How many entries there are: never more than places.
    pub fn len(&self) -> usize
        ensures size { result ≡ size_of self.now }
        ensures within { result ≤ length self.now.slots.now }
    {
        self.len
    }

    pub fn is_empty(&self) -> bool
        ensures { result ≡ (size_of self.now == 0) }
    {
        self.len == 0
    }

    /// How many more entries it takes.
    pub fn room(&self) -> usize
        ensures { result ≡ room_of self.now }
    {
        self.slots.len() - self.len
    }

    /// The entry at a place, none past the last.
    pub fn get(&self, place: usize) -> Option<T>
        ensures { result ≡ entry_at self.now place }
    {
        self.entries().get(place).copied()
    }

    /// All entries, the oldest first.
    pub fn entries(&self) -> &[T]
        ensures { result.now ≡ entries_of self.now }
    {
        &self.slots[..self.len]
    }

    // Hands the places on whole, to write: every write goes through it. The log is empty and has none until `restore`.
    // Lending `&mut *self.slots` would do in place of the pair; what the log then ends as is not proved of a slice behind a
    // reference.
    fn places(&mut self) -> &'a mut [T]
        ensures out { (result.now ≡ self.old.slots.now) × (result.ghost_name ≡ self.old.slots.ghost_name) }
        ensures rest { (self.new.slots.now ≡ []) × (self.new.len ≡ 0) }
    {
        let Log { slots, .. } = std::mem::replace(self, Log::new(&mut []));
        slots
    }

    // Takes the places back, of which the first `len` are in use.
    fn restore(&mut self, slots: &'a mut [T], len: usize)
        requires { len ≤ length slots.old }
        ensures back { (self.new.slots.now ≡ slots.old) × (self.new.slots.ghost_name ≡ slots.entry.ghost_name) }
        ensures used { self.new.len ≡ len }
    {
        *self = Log { slots, len };
    }

    /// One more entry at the end. With no room it comes back, and nothing changed.
    pub fn push(&mut self, entry: T) -> Result<(), T>
        ensures change { Pushed self.old entry (is_ok result) self.new }
        ensures back { IfErr result (λ given. given ≡ entry) }
    {
        let end = self.len;
        if end == self.slots.len() {
            return Err(entry);
        }
        let slots = self.places();
        slots[end] = entry;
        self.restore(slots, end + 1);
        Ok(())
    }

    /// Another entry at that place, for the one that stood there, which is answered. None past the last, and nothing changed.
    #[tactic(auto, using(crate::proofs::Writes::entry_written))]
    pub fn replace(&mut self, place: usize, entry: T) -> Option<T>
        ensures change { Replaced self.old place entry (is_some result) self.new }
        ensures stood { result ≡ entry_at self.old place }
    {
        let stood = self.get(place)?;
        let len = self.len;
        let slots = self.places();
        slots[place] = entry;
        self.restore(slots, len);
        Some(stood)
    }
}

#[cfg(test)]
mod tests;
