// A waiting line over memory that the caller lends: entries leave in the order they came.
#![tactic(auto)]

ghost use Rattle.std.specs.Prelude.{◌≡◌, ◌+◌, ◌-◌, ◌<◌, ◌≤◌, ◌↔◌, [], ◌∷◌, ◌++◌, length, IfNone, None, OnErr, ◌==◌, nat_lt, slice_set};
ghost use Rattle.std.specs.Option.{option_to_list};
ghost use Rattle.terms.specs.Refusals.{ask, asked, numbered};

use terms::refusal::Refusal;

// The entries wait from the head on, and on from the first place after the last.
// The memory is the caller's, of any length and with no heap (docs/DECISIONS.md), so the line is a lent slice and no VecDeque.
#[derive(Drop)]
pub struct Queue<'a, T: Copy> {
    slots: &'a mut [T],
    head: usize,
    len: usize,
    pub ghost first: { head ≤ length slots.now - 1 },
    pub ghost fits: { len ≤ length slots.now },
}

// Writes the entry into its place. A function that takes the whole memory does the writing: a form that the project keeps, docs/DECISIONS.md.
// The row store has its own: one for both would be a public call with a `requires`.
fn put<T: Copy>(slots: &mut [T], at: usize, entry: T)
    requires inside { at < length slots.old }
    ensures written { slots.new ≡ slice_set slots.old at entry }
{
    slots[at] = entry;
}

impl<'a, T: Copy> Queue<'a, T> {
    ghost use Rattle.queue.specs.Lines.{lengthened, places, waiting, wrapped};

    // A line with no entry; every entry of the memory is a place.
    pub fn new(slots: &'a mut [T]) -> Queue<'a, T>
        ensures empty { waiting result ≡ [] }
        ensures room { places result ≡ length slots.old }
    {
        Queue {
            slots,
            head: 0,
            len: 0,
        }
    }

    // The place so many places after the head; after the last comes the first.
    fn place_after_head(&self, by: usize) -> usize
        requires any { 0 < places self.now }
        requires near { by ≤ places self.now }
        ensures counted { result ≡ wrapped (places self.now) (self.now.head + by) }
    {
        let ahead = self.slots.len() - self.head;
        if by < ahead {
            self.head + by
        } else {
            by - ahead
        }
    }

    // Adds an entry at the end, or is refused and changes nothing.
    pub fn push(&mut self, entry: T) -> Result<(), Refusal>
        ensures answer { numbered result ≡ asked (ask 6 (nat_lt (length (waiting self.old)) (places self.old)) ∷ []) tt }
        ensures after { waiting self.new ≡ lengthened result (waiting self.old) entry }
        ensures unchanged { OnErr result (self.new ≡ self.old) }
        ensures room { places self.new ≡ places self.old }
    {
        if self.len >= self.slots.len() {
            return Err(Refusal::NoFreePlace);
        }
        let waiting = self.len;
        let at = self.place_after_head(waiting);
        put(self.slots, at, entry);
        self.len += 1;
        Ok(())
    }

    // Takes the first entry, or nothing from an empty line.
    pub fn pop(&mut self) -> Option<T>
        ensures taken { waiting self.old ≡ option_to_list result ++ waiting self.new }
        ensures nothing { (result ≡ None) ↔ (waiting self.old ≡ []) }
        ensures unchanged { IfNone result (self.new ≡ self.old) }
        ensures room { places self.new ≡ places self.old }
    {
        if self.len == 0 {
            return None;
        }
        let at = self.head;
        let entry = self.slots[at];
        self.head = self.place_after_head(1);
        self.len -= 1;
        Some(entry)
    }

    // How many entries wait; the question takes the line for writing, which is a form that the project keeps (docs/DECISIONS.md), and changes nothing.
    pub fn len(&mut self) -> usize
        ensures answer { result ≡ length (waiting self.old) }
        ensures unchanged { self.new ≡ self.old }
    {
        return self.len;
    }

    // Whether no entry waits; it takes the line as `len` does, and changes nothing either.
    pub fn is_empty(&mut self) -> bool
        ensures answer { result ≡ (length (waiting self.old) == 0) }
        ensures unchanged { self.new ≡ self.old }
    {
        self.len == 0
    }
}

#[cfg(test)]
mod tests {
    use super::*;
    use std::test::Fail;

    #[test]
    fn refuses_the_fourth(rt: HostRuntime) -> Result<(), Fail> {
        let mut memory = [0u8; 3];
        let mut parts = Queue::new(&mut memory);
        parts.push(7)?;
        parts.push(8)?;
        parts.push(9)?;
        assert_eq!(rt; parts.push(5), Err(Refusal::NoFreePlace));
        assert_eq!(rt; parts.len(), 3);
        Ok(())
    }

    #[test]
    fn uses_a_place_again(rt: HostRuntime) -> Result<(), Fail> {
        let mut memory = [0u8; 3];
        let mut parts = Queue::new(&mut memory);
        parts.push(7)?;
        parts.push(8)?;
        parts.push(9)?;
        assert_eq!(rt; parts.pop(), Some(7));
        parts.push(5)?;
        assert_eq!(rt; parts.pop(), Some(8));
        assert_eq!(rt; parts.pop(), Some(9));
        assert_eq!(rt; parts.pop(), Some(5));
        assert_eq!(rt; parts.pop(), None);
        Ok(())
    }

    #[test]
    fn holds_pairs_of_classes(rt: HostRuntime) -> Result<(), Fail> {
        let first = (1u8, 2u8);
        let second = (3u8, 4u8);
        let mut memory = [first; 2];
        let mut pairs = Queue::new(&mut memory);
        pairs.push(second)?;
        pairs.push(first)?;
        assert_eq!(rt; pairs.pop(), Some(second));
        assert!(rt; !pairs.is_empty());
        assert_eq!(rt; pairs.pop(), Some(first));
        assert!(rt; pairs.is_empty());
        Ok(())
    }
}
