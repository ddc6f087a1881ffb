//! For how many values a renewing queue has room, and about how many are in it.
ghost use Rattle.std.specs.Prelude.{◌≡◌, ◌≤◌, ◌*◌, length};
ghost use Rattle.kfifo_renewing.specs.Renewing.{Counts, Follows, all_of, room_of, slots_of};

use crate::handle::RenewingHandle;
use crate::kind::Kind;

impl<T: Drop, K: Kind<T>> RenewingHandle<T, K> {
    /// For how many values a generation has room, whatever the handles keep for themselves.
    ///
    /// In a queue that was opened by a capacity it is that, rounded up to a multiple of the threads. A queue that may
    /// grow has room for that many in each of its generations.
    pub fn capacity(&self) -> usize
        ensures { result ≡ room_of self.now.opened }
    {
        self.shared.capacity()
    }

    /// About how many values are in the queue: the sum over its generations, as `PooledQueue::len` counts each of them.
    ///
    /// The handle first follows others that have opened a newer generation. Calls that run meanwhile are counted or
    /// not. It makes 2k + 1 loads at most for each generation, of which there is mostly one.
    pub fn len(&mut self) -> usize
        ensures { Counts result self.old self.new }
    {
        // Where others open new ones all the time, those are counted that the handle has come to.
        let _ = self.keep_up();
        self.count_all()
    }

    /// Whether `len` counts no value, by the same loads.
    pub fn is_empty(&mut self) -> bool
        ensures { Follows self.old self.new }
    {
        self.len() == 0
    }

    /// About how many values are in the generations of the handle.
    fn count_all(&self) -> usize
        ensures { result ≤ length (all_of self.now) * slots_of self.now.opened }
    {
        self.older
            .count()
            .saturating_add(self.generation.queue().len())
    }
}
