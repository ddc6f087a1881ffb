//! About how many items a queue has.
ghost use Rattle.std.specs.Prelude.{◌≡◌, ◌<◌, ◌≤◌, ◌+◌, ◌*◌};

use crate::ring::Ring;
use kfifo_words::{ENDS_INDEX, Ends, Word};

impl<T> Ring<'_, T> {
    /// How many slots of a segment are filled, each looked at once.
    fn filled(self, segment: u32) -> u32
        requires size { 2 + self.shape.now.n * self.shape.now.k ≤ self.words.now.table_id.words }
        requires segment { segment < self.shape.now.n }
        ensures { result ≤ self.entry.shape.now.k }
    {
        let mut filled = 0;
        'slots: for slot in 0..self.shape.k() {
            let word = Word::of_bits(self.words.peek(self.shape.slot_index(segment, slot)));
            if word.value() != 0 {
                filled += 1;
            }
        }
        filled
    }

    /// How many items the ring has: those in the segments of head and tail, and k for each segment between them.
    ///
    /// A segment between them has k unless the call that put an item there took it back. The loads are no events, so no
    /// clause says more than that there are no more items than slots.
    pub(crate) fn count(self) -> usize
        requires { 2 + self.shape.now.n * self.shape.now.k ≤ self.words.now.table_id.words }
        ensures { result ≤ self.entry.shape.now.n * self.entry.shape.now.k }
    {
        let ends = Ends::of_bits(self.words.peek(ENDS_INDEX));
        let (head, tail, n) = (ends.head(), ends.tail(), self.shape.n());
        // Both are segments of the ring always. What a load finds that is no event, no clause knows.
        if head >= n || tail >= n {
            return 0;
        }
        let at_head = self.filled(head) as usize;
        let steps = self.shape.dist(head, tail) as usize;
        if steps == 0 {
            return at_head;
        }
        (steps - 1) * self.shape.k() as usize + at_head + self.filled(tail) as usize
    }
}
