//! A group of passes that make no call any more.
ghost use Rattle.std.specs.Prelude.{◌≡◌, ◌++◌, [], ◌∷◌};
ghost use Rattle.kfifo_live.specs.Groups.{GroupView, IsGroup, LeaveNothing, Meets, group_view};
ghost use Rattle.kfifo_live.specs.Pass.{IsPassOf};
ghost use Rattle.kfifo_live.specs.Payloads.{EndsIn};

use crate::seats::{give_all, give_rest, join_seats, observe};
use crate::tokens::{TokenPass, TokenQueue};
use crate::view::ThreadSeat;
use std::marker::{Brand, Model};

/// Passes of a queue of tokens that make no call any more. One schedule has what all of them did.
///
/// Clauses see it as its first pass, whose schedule is that one, and the others as they were when they joined.
#[derive(Drop)]
pub struct TokenGroup<T: Drop> {
    thread: u32,
    seat: ThreadSeat<T>,
}

impl<T: Drop> Model for TokenGroup<T> {
    ghost Value = { GroupView T };

    ghost view = { λ g. group_view g.seat.table_id g.thread g.seat.me.0 };

    ghost invariant = { λ g. IsGroup g.thread g.seat.table_id g.seat.me };
}

impl<T: Drop> TokenPass<T> {
    /// What the clause says: between two calls a pass has nothing of its own in a queue that was sealed empty, since
    /// all that it put there has come out. It makes no step.
    pub fn has_ended(&self)
        ensures { LeaveNothing (self.now ∷ []) self.now.pass }
    {
        let _ = &self.thread;
    }

    /// A group of this pass alone.
    pub fn into_group(self) -> TokenGroup<T>
        ensures first { result.first ≡ self }
        ensures alone { result.others ≡ [] }
    {
        let TokenPass { thread, seat } = self;
        TokenGroup { thread, seat }
    }
}

impl<T: Drop> TokenQueue<T> {
    /// Has a group see what a pass of its queue has seen, by one load of the ends word, which is no event. The pass
    /// stays as it is, and may then join the group.
    pub fn meet(&self, group: &mut TokenGroup<T>, pass: &mut TokenPass<T>)
        requires group { IsPassOf self.now group.old.first.pass }
        requires pass { IsPassOf self.now pass.old.pass }
        ensures pass { pass.new ≡ pass.old }
        ensures meets { Meets pass.old group.old group.new }
    {
        let shared = &self.table.shared;
        let mut lent = give_all(shared, &mut pass.seat);
        let others = give_rest(shared, &mut group.seat);
        join_seats::<_, Brand>(shared, &mut lent, others);
        join_seats::<_, Brand>(shared, &mut group.seat, lent);
        observe(shared, &mut group.seat, 0);
        let mut back = give_rest(shared, &mut group.seat);
        let others = give_rest(shared, &mut back);
        join_seats::<_, Brand>(shared, &mut pass.seat, back);
        join_seats::<_, Brand>(shared, &mut group.seat, others);
    }

    /// Adds a pass to a group of its queue, which has met the pass since it made its last call. It is no event.
    pub fn join(&self, group: &mut TokenGroup<T>, pass: TokenPass<T>)
        requires group { IsPassOf self.now group.old.first.pass }
        requires pass { IsPassOf self.now pass.pass }
        requires met { EndsIn group.old.first.pass.seen group.old.first.gifts pass }
        ensures first { group.new.first ≡ group.old.first }
        ensures others { group.new.others ≡ group.old.others ++ pass ∷ [] }
    {
        let TokenPass { thread: _, seat } = pass;
        join_seats::<_, Brand>(&self.table.shared, &mut group.seat, seat);
    }
}
