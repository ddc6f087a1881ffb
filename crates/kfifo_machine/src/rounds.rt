//! A round of a call: what a thread does with the word that its atomic step found.

ghost use Rattle.std.specs.Prelude.{◌≡◌, ℕ, ◌+◌, ◌^◌, ◌<◌, ◌≤◌};
ghost use Rattle.kfifo_words.specs.Words.{version_of};
ghost use Rattle.kfifo_machine.specs.Program.{advance, enqueue_advance, dequeue_advance, enqueue_again, dequeue_again};
ghost use Rattle.kfifo_machine.specs.Places.{IsEnds, IsPlace, IsEnqueuePhase, IsDequeuePhase, IsFound, IsFoundBy};

use crate::steps::scan;
use crate::{DequeuePhase, EnqueuePhase, Found, Next, Running};
use kfifo_model::Answer;
use kfifo_words::{Ends, Shape, Word};

/// An enqueue in one of its rounds.
#[derive(Clone, Copy)]
struct EnqueueRound {
    item: u32,
    start: u32,
    left: u16,
}

impl EnqueueRound {
    /// The round goes on.
    fn goes(self, phase: EnqueuePhase) -> Next
        ensures { result ≡ Next.Goes (Running.Enqueue self.item self.start self.left phase) }
    {
        Next::Goes(Running::Enqueue {
            item: self.item,
            start: self.start,
            left: self.left,
            phase,
        })
    }

    /// The round ends: the next one begins, or the call returns Busy.
    fn again(self) -> Next
        requires { 0 < self.left }
        ensures { result ≡ enqueue_again self.item self.start self.left }
    {
        if self.left == 1 {
            Next::Answers(Answer::Busy)
        } else {
            let left = self.left - 1;
            EnqueueRound { left, ..self }.goes(EnqueuePhase::LoadEnds)
        }
    }

    /// After a slot of the tail's segment was loaded.
    fn tail_scanned(self, shape: &Shape, ends: Ends, offset: u32, word: Word) -> Next
        requires start { self.start < shape.now.k }
        requires ends { IsEnds shape.now ends }
        requires offset { offset < shape.now.probes }
        ensures { result ≡ enqueue_advance shape.now self.item self.start self.left (EnqueuePhase.ScanTail ends offset)
            word }
    {
        if word.value() == 0 {
            let index = scan(shape, ends.tail(), self.start, offset);
            self.goes(EnqueuePhase::Recheck {
                ends,
                found: Found::Slot { index, word },
            })
        } else if offset + 1 == shape.probes() {
            self.goes(EnqueuePhase::Recheck {
                ends,
                found: Found::Nothing,
            })
        } else {
            self.goes(EnqueuePhase::ScanTail {
                ends,
                offset: offset + 1,
            })
        }
    }

    /// What follows the second load of the ends word, with an empty slot that was found or with none.
    fn rechecked(self, shape: &Shape, ends: Ends, found: Found, now: Ends) -> Next
        requires left { 0 < self.left }
        requires ends { IsEnds shape.now ends }
        ensures { result ≡ enqueue_advance shape.now self.item self.start self.left (EnqueuePhase.Recheck ends found)
            now }
    {
        // The segment may no longer be the tail's. An item put there would stand behind items that came later, and be
        // overtaken by them.
        if now != ends {
            return self.again();
        }
        match found {
            Found::Slot { index, word } => {
                // A put needs a version, and the undo that may follow it another.
                if shape.last() < word.version() + 2 {
                    Next::Answers(Answer::Worn)
                } else {
                    self.goes(EnqueuePhase::Put {
                        ends,
                        index,
                        empty: word,
                    })
                }
            }
            Found::Nothing => {
                if shape.next(ends.tail()) == ends.head() {
                    self.goes(EnqueuePhase::ScanHead { ends, offset: 0 })
                } else if ends.version() == shape.last() {
                    Next::Answers(Answer::Worn)
                } else {
                    self.goes(EnqueuePhase::MoveTail { ends })
                }
            }
        }
    }

    /// What follows the third load of the ends word, with the item in its slot.
    fn placed(self, shape: &Shape, ends: Ends, index: usize, filled: Word, now: Ends) -> Next
        requires ends { IsEnds shape.now ends }
        requires now { IsEnds shape.now now }
        ensures { result ≡ enqueue_advance shape.now self.item self.start self.left
            (EnqueuePhase.ReloadEnds ends index filled) now }
    {
        // Since the ends were first loaded, others may have filled and emptied the segment, and the head have moved
        // past it. Done would then leave the item behind the head, where no dequeue finds it.
        let segment = ends.tail();
        let head = now.head();
        if segment == head && now.version() == shape.last() {
            self.goes(EnqueuePhase::Undo {
                index,
                filled,
                worn: true,
            })
        } else if segment == head {
            // A dequeue may have seen this slot empty and be about to move the head past the item. The greater version
            // makes its compare-and-swap fail.
            self.goes(EnqueuePhase::HoldHead {
                ends,
                index,
                filled,
                held: now,
            })
        } else if shape.dist(head, segment) <= shape.dist(head, now.tail()) {
            Next::Answers(Answer::Done)
        } else {
            self.goes(EnqueuePhase::Undo {
                index,
                filled,
                worn: false,
            })
        }
    }

    /// After a slot of the head's segment was loaded.
    fn head_scanned(self, shape: &Shape, ends: Ends, offset: u32, word: Word) -> Next
        requires ends { IsEnds shape.now ends }
        requires offset { offset < shape.now.k }
        ensures { result ≡ enqueue_advance shape.now self.item self.start self.left (EnqueuePhase.ScanHead ends offset)
            word }
    {
        if word.value() != 0 {
            self.goes(EnqueuePhase::ConfirmFull { ends })
        } else if offset + 1 != shape.k() {
            self.goes(EnqueuePhase::ScanHead {
                ends,
                offset: offset + 1,
            })
        } else if ends.version() == shape.last() {
            Next::Answers(Answer::Worn)
        } else {
            self.goes(EnqueuePhase::MoveHead { ends })
        }
    }

    /// After an undo.
    fn undone(self, filled: Word, worn: bool, index: usize, word: Word, shape: &Shape) -> Next
        requires left { 0 < self.left }
        ensures { result ≡ enqueue_advance shape.now self.item self.start self.left
            (EnqueuePhase.Undo index filled worn) word }
    {
        // Another word than the item's own: a dequeue has taken the item, so the enqueue has taken place.
        if word != filled {
            Next::Answers(Answer::Done)
        } else if worn {
            Next::Answers(Answer::Worn)
        } else {
            self.again()
        }
    }

    /// After an exchange that puts the item into an empty slot.
    fn put(self, shape: &Shape, ends: Ends, index: usize, empty: Word, word: Word) -> Next
        requires item { self.item < 2 ^ 24 }
        requires left { 0 < self.left }
        requires version { version_of empty + 2 ≤ shape.now.last }
        ensures { result ≡ enqueue_advance shape.now self.item self.start self.left (EnqueuePhase.Put ends index empty)
            word }
    {
        if word == empty {
            // The version never falls. With the empty slot's old version an enqueue that read it long ago could still
            // put its item, in a segment that is no longer the tail's (ABA).
            let filled = Word::pack(self.item, empty.version() + 1);
            self.goes(EnqueuePhase::ReloadSlot {
                ends,
                index,
                filled,
            })
        } else {
            self.again()
        }
    }

    /// What follows the load of the slot after the put.
    fn slot_reloaded(
        self,
        shape: &Shape,
        ends: Ends,
        index: usize,
        filled: Word,
        word: Word,
    ) -> Next
        ensures { result ≡ enqueue_advance shape.now self.item self.start self.left
            (EnqueuePhase.ReloadSlot ends index filled) word }
    {
        if word == filled {
            self.goes(EnqueuePhase::ReloadEnds {
                ends,
                index,
                filled,
            })
        } else {
            Next::Answers(Answer::Done)
        }
    }

    /// What follows an exchange that raises the version of the ends word.
    fn head_held(
        self,
        shape: &Shape,
        ends: Ends,
        index: usize,
        filled: Word,
        held: Ends,
        now: Ends,
    ) -> Next
        requires left { 0 < self.left }
        ensures { result ≡ enqueue_advance shape.now self.item self.start self.left
            (EnqueuePhase.HoldHead ends index filled held) now }
    {
        if now == held {
            Next::Answers(Answer::Done)
        } else if shape.holds_again() && self.left != 1 {
            // Another thread moved an end or held the head. If each such loss took the item out, two threads could keep
            // each other busy for ever, although the item may well lie between head and tail.
            let left = self.left - 1;
            EnqueueRound { left, ..self }.goes(EnqueuePhase::ReloadSlot {
                ends,
                index,
                filled,
            })
        } else {
            self.goes(EnqueuePhase::Undo {
                index,
                filled,
                worn: false,
            })
        }
    }

    /// What follows the load of the ends word after a filled slot of the head's segment.
    fn full_confirmed(self, shape: &Shape, ends: Ends, now: Ends) -> Next
        requires left { 0 < self.left }
        ensures { result ≡ enqueue_advance shape.now self.item self.start self.left (EnqueuePhase.ConfirmFull ends)
            now }
    {
        // The slots were loaded one after the other. They were the tail's and the head's segment, full and not empty,
        // in one round only if neither end has moved.
        if now == ends {
            Next::Answers(Answer::Full)
        } else {
            self.again()
        }
    }

    /// What an enqueue does with the word that its step found.
    fn next(self, shape: &Shape, phase: EnqueuePhase, word: Word) -> Next
        requires item { self.item < 2 ^ 24 }
        requires start { self.start < shape.now.k }
        requires left { 0 < self.left }
        requires phase { IsEnqueuePhase shape.now phase }
        requires word { IsFound shape.now phase word }
        ensures { result ≡ enqueue_advance shape.now self.item self.start self.left phase word }
    {
        use EnqueuePhase as Phase;
        let now = Ends::from(word);
        match phase {
            Phase::LoadEnds => self.goes(Phase::ScanTail {
                ends: now,
                offset: 0,
            }),
            Phase::ScanTail { ends, offset } => self.tail_scanned(shape, ends, offset, word),
            Phase::Recheck { ends, found } => self.rechecked(shape, ends, found, now),
            Phase::Put { ends, index, empty } => self.put(shape, ends, index, empty, word),
            Phase::ReloadSlot {
                ends,
                index,
                filled,
            } => self.slot_reloaded(shape, ends, index, filled, word),
            Phase::ReloadEnds {
                ends,
                index,
                filled,
            } => self.placed(shape, ends, index, filled, now),
            Phase::HoldHead {
                ends,
                index,
                filled,
                held,
            } => self.head_held(shape, ends, index, filled, held, now),
            Phase::Undo {
                index,
                filled,
                worn,
            } => self.undone(filled, worn, index, word, shape),
            Phase::ScanHead { ends, offset } => self.head_scanned(shape, ends, offset, word),
            Phase::ConfirmFull { ends } => self.full_confirmed(shape, ends, now),
            // Won or lost, the round ends. Moving the tail too, after a lost move of the head, would let the tail meet
            // the head: a full ring would look empty.
            Phase::MoveHead { .. } | Phase::MoveTail { .. } => self.again(),
        }
    }
}

/// A dequeue in one of its rounds.
#[derive(Clone, Copy)]
struct DequeueRound {
    start: u32,
    left: u16,
}

impl DequeueRound {
    /// The round goes on.
    fn goes(self, phase: DequeuePhase) -> Next
        ensures { result ≡ Next.Goes (Running.Dequeue self.start self.left phase) }
    {
        Next::Goes(Running::Dequeue {
            start: self.start,
            left: self.left,
            phase,
        })
    }

    /// The round ends: the next one begins, or the call returns Busy.
    fn again(self) -> Next
        requires { 0 < self.left }
        ensures { result ≡ dequeue_again self.start self.left }
    {
        if self.left == 1 {
            Next::Answers(Answer::Busy)
        } else {
            let left = self.left - 1;
            DequeueRound { left, ..self }.goes(DequeuePhase::LoadEnds)
        }
    }

    /// After a slot of the head's segment was loaded.
    fn head_scanned(self, shape: &Shape, ends: Ends, offset: u32, word: Word) -> Next
        requires start { self.start < shape.now.k }
        requires ends { IsEnds shape.now ends }
        requires offset { offset < shape.now.k }
        ensures { result ≡ dequeue_advance shape.now self.start self.left (DequeuePhase.ScanHead ends offset) word }
    {
        if word.value() != 0 {
            let index = scan(shape, ends.head(), self.start, offset);
            self.goes(DequeuePhase::Recheck {
                ends,
                found: Found::Slot { index, word },
            })
        } else if offset + 1 == shape.k() {
            self.goes(DequeuePhase::Recheck {
                ends,
                found: Found::Nothing,
            })
        } else {
            self.goes(DequeuePhase::ScanHead {
                ends,
                offset: offset + 1,
            })
        }
    }

    /// What follows the second load of the ends word, with a filled slot that was found or with none.
    fn rechecked(self, shape: &Shape, ends: Ends, found: Found, now: Ends) -> Next
        requires left { 0 < self.left }
        ensures { result ≡ dequeue_advance shape.now self.start self.left (DequeuePhase.Recheck ends found) now }
    {
        // The segment may no longer be the head's: the item would not be one of the k oldest, and an item may have come
        // into a slot after it was seen empty.
        if now != ends {
            return self.again();
        }
        let together = ends.tail() == ends.head();
        let worn = ends.version() == shape.last();
        match found {
            Found::Slot { index, word } => {
                if !together {
                    self.goes(DequeuePhase::Take {
                        ends,
                        index,
                        filled: word,
                    })
                } else if worn {
                    Next::Answers(Answer::Worn)
                } else {
                    // While enqueues still fill the head's segment, more than k items could go through it and overtake
                    // one that stays. So the tail leaves it before an item is taken.
                    self.goes(DequeuePhase::MoveTail {
                        ends,
                        index,
                        filled: word,
                    })
                }
            }
            Found::Nothing => {
                if together {
                    Next::Answers(Answer::Empty)
                } else if worn {
                    Next::Answers(Answer::Worn)
                } else {
                    self.goes(DequeuePhase::MoveHead { ends })
                }
            }
        }
    }

    /// What a dequeue does with the word that its step found.
    fn next(self, shape: &Shape, phase: DequeuePhase, word: Word) -> Next
        requires start { self.start < shape.now.k }
        requires left { 0 < self.left }
        requires phase { IsDequeuePhase shape.now phase }
        ensures { result ≡ dequeue_advance shape.now self.start self.left phase word }
    {
        match phase {
            DequeuePhase::LoadEnds => self.goes(DequeuePhase::ScanHead {
                ends: word.into(),
                offset: 0,
            }),
            DequeuePhase::ScanHead { ends, offset } => self.head_scanned(shape, ends, offset, word),
            DequeuePhase::Recheck { ends, found } => self.rechecked(
                shape,
                ends,
                found,
                word.into(),
            ),
            DequeuePhase::MoveTail {
                ends,
                index,
                filled,
            } => {
                if Ends::from(word) == ends {
                    self.goes(DequeuePhase::Take {
                        ends,
                        index,
                        filled,
                    })
                } else {
                    self.again()
                }
            }
            DequeuePhase::Take { filled, .. } => {
                if word == filled {
                    Next::Answers(Answer::Got(filled.value()))
                } else {
                    self.again()
                }
            }
            DequeuePhase::MoveHead { .. } => self.again(),
        }
    }
}

impl Running {
    /// What a thread at this place does with the word that its step found.
    pub fn advance(&self, shape: &Shape, word: Word) -> Next
        requires place { IsPlace shape.now self.now }
        requires word { IsFoundBy shape.now self.now word }
        ensures { result ≡ advance shape.now self.now word }
    {
        match *self {
            Running::Enqueue {
                item,
                start,
                left,
                phase,
            } => EnqueueRound { item, start, left }.next(shape, phase, word),
            Running::Dequeue { start, left, phase } => DequeueRound { start, left }.next(
                shape, phase, word,
            ),
        }
    }
}
