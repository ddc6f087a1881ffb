//! What changes among the generations of a queue. No value of these types is ever made: they live in proofs alone.
ghost use Rattle.atomic_table.specs.Seated.{TableId, table_id_coded};
ghost use base.Fml.{ftrue};

use kfifo_machine::Event;
use kfifo_words::Shape;
use std::collections::LinkedList;
use std::marker::Model;

/// The queue of a generation: its table, the sizes of its ring, and how many threads it has.
pub struct Made {
    /// Its table.
    pub ghost table: { TableId } by { table_id_coded },
    /// The sizes of its ring.
    pub shape: Shape,
    /// How many threads it has.
    pub threads: u32,
}

impl Model for Made {
    ghost also_owns = { λ m. ftrue };
}

/// What a pass had seen when its handle looked for the newest generation, or as it left its generation.
pub struct Sight {
    /// The thread of the pass.
    pub thread: u32,
    /// The beginning of the schedule of its generation that it had seen.
    pub seen: LinkedList<Event>,
}

/// A generation that a pass found empty and sealed.
pub struct Sealed {
    /// The number of the generation.
    pub number: u32,
    /// Its queue.
    pub queue: Made,
    /// The beginning of its schedule that the pass had then seen.
    pub seen: LinkedList<Event>,
}

/// An entry of the history of a queue's generations.
pub enum Change {
    /// A generation was made. In the first entry the flag is true if the queue may open further generations.
    Made(Made, bool),
    /// The generation with this number became the newest.
    Newest(u32),
    /// A handle looked which generation is the newest. Its pass had seen this.
    Look(Sight),
    /// The generation with this number, which was the newest, was shown in this place.
    Placed(u32, u32),
    /// This generation went from its place, as it was the newest no more.
    Gone(Sealed),
    /// A pass left the generation with this number. It had seen this.
    Left(u32, Sight),
}
