//! Handles of a queue with a pool join a group of passes that make no call any more.
ghost use Rattle.std.specs.Prelude.{◌≡◌, ◌++◌, [], ◌∷◌};
ghost use Rattle.kfifo_live.specs.Groups.{Meets};
ghost use Rattle.kfifo_live.specs.Pass.{IsPassOf};
ghost use Rattle.kfifo_live.specs.Payloads.{EndsIn};
ghost use Rattle.kfifo_pool.specs.Pooled.{pass_of};

use crate::handle::PooledHandle;
use crate::pool::PooledQueue;
use kfifo_live::TokenGroup;

impl<T: Drop> PooledHandle<T> {
    /// A group of its pass alone. The free tokens and the cells of the handle are lost.
    pub fn into_group(self) -> TokenGroup<T>
        ensures first { result.first ≡ self.held.pass }
        ensures alone { result.others ≡ [] }
    {
        self.into_pass().into_group()
    }
}

impl<T: Drop> PooledQueue<T> {
    /// Has a group see what the pass of a handle has seen, as `TokenQueue::meet` does. The handle stays as it is.
    pub fn meet(&self, group: &mut TokenGroup<T>, handle: &mut PooledHandle<T>)
        requires group { IsPassOf self.now group.old.first.pass }
        requires handle { IsPassOf self.now (pass_of handle.old.held) }
        ensures same { handle.new ≡ handle.old }
        ensures meets { Meets handle.old.held.pass group.old group.new }
    {
        handle.handle.meet(&self.queue, group);
    }

    /// Adds the pass of a handle to a group of this queue that has met it, as `TokenQueue::join` does. The free tokens
    /// and the cells of the handle are lost.
    pub fn join(&self, group: &mut TokenGroup<T>, handle: PooledHandle<T>)
        requires group { IsPassOf self.now group.old.first.pass }
        requires handle { IsPassOf self.now (pass_of handle.held) }
        requires met { EndsIn group.old.first.pass.seen group.old.first.gifts handle.held.pass }
        ensures first { group.new.first ≡ group.old.first }
        ensures others { group.new.others ≡ group.old.others ++ handle.held.pass ∷ [] }
    {
        self.queue.join(group, handle.into_pass());
    }
}
