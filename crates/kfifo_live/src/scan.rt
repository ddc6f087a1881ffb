//! Scans of a segment.
ghost use Rattle.std.specs.Prelude.{◌≡◌, ◌<◌, ◌≤◌, ◌+◌, ◌-◌, ℕ, Bool};
ghost use Rattle.kfifo_words.specs.Ring.{slot_at};
ghost use Rattle.kfifo_live.specs.Scans.{EndsRow, EndsScan, MakesRow, MakesScan, is_empty, is_filled};

use crate::ring::Ring;
use crate::view::ThreadSeat;
use kfifo_machine::Found;
use kfifo_words::Word;

/// What a scan looks for. It stops at the first such word.
pub(crate) trait Wanted {
    ghost stops: { ℕ → Bool };

    /// Whether the scan stops at this word.
    fn is_wanted(word: Word) -> bool
        ensures { result ≡ Self.stops word };
}

/// A scan for an empty slot.
pub(crate) struct Empty;

impl Wanted for Empty {
    ghost stops = { is_empty };

    #[inline(always)]
    fn is_wanted(word: Word) -> bool {
        word.value() == 0
    }
}

/// A scan for a filled slot.
pub(crate) struct Filled;

impl Wanted for Filled {
    ghost stops = { is_filled };

    #[inline(always)]
    fn is_wanted(word: Word) -> bool {
        word.value() != 0
    }
}

impl<T> Ring<'_, T> {
    /// Looks for a filled slot, or for an empty one, from the index `first` up to before `end`, at one slot at least.
    #[inline(always)]
    fn scan_row<W: Wanted>(self, seat: &mut ThreadSeat<T>, first: usize, end: usize) -> Found
        requires row { MakesRow self W.stops first (end - first) seat.old }
        ensures { EndsRow self.entry W.stops first (end - first) seat.old result seat.new }
    {
        let mut index = first;
        'slots: loop {
            let word = self.load(seat, index);
            if W::is_wanted(word) {
                return Found::Slot { index, word };
            }
            index += 1;
            if index == end {
                return Found::Nothing;
            }
        }
    }

    /// The same among `count` slots, two at a time, which takes fewer instructions where the row is long.
    ///
    /// It is for the second row of a scan, which few scans reach unless the segment is empty.
    #[inline(always)]
    fn scan_row_by_two<W: Wanted>(self, seat: &mut ThreadSeat<T>, first: usize, count: u32) -> Found
        requires row { MakesRow self W.stops first count seat.old }
        ensures { EndsRow self.entry W.stops first count seat.old result seat.new }
    {
        let end = first + count as usize;
        let mut index = first;
        if count % 2 == 1 {
            let word = self.load(seat, index);
            if W::is_wanted(word) {
                return Found::Slot { index, word };
            }
            index += 1;
            if index == end {
                return Found::Nothing;
            }
        }
        'pairs: loop {
            let word = self.load(seat, index);
            if W::is_wanted(word) {
                return Found::Slot { index, word };
            }
            let next = self.load(seat, index + 1);
            if W::is_wanted(next) {
                return Found::Slot {
                    index: index + 1,
                    word: next,
                };
            }
            index += 2;
            if index == end {
                return Found::Nothing;
            }
        }
    }

    /// Looks at the other slots of a segment, all `limit` of them but the first, which was looked at: those
    /// behind `start`, and then those before it. `origin` is the index of the segment's slot 0.
    #[inline(always)]
    fn scan_rest_of_all<W: Wanted>(
        self,
        seat: &mut ThreadSeat<T>,
        segment: u32,
        origin: usize,
        start: u32,
        limit: u32,
    ) -> Found
        requires segment { segment < self.shape.now.n }
        requires origin { origin ≡ slot_at self.shape.now.k segment 0 }
        requires start { start < self.shape.now.k }
        requires limit { (start + 1 < limit) × (limit ≡ self.shape.now.k) }
        requires scan { MakesScan self W.stops segment start limit 1 seat.old }
        ensures { EndsScan self.entry W.stops segment start limit 1 seat.old result seat.new }
    {
        let first = origin + start as usize + 1;
        let end = origin + limit as usize;
        if let Found::Slot { index, word } = self.scan_row::<W>(seat, first, end) {
            return Found::Slot { index, word };
        }
        if start == 0 {
            return Found::Nothing;
        }
        self.scan_row_by_two::<W>(seat, origin, start)
    }

    /// The same where `limit` slots are looked at, some or all.
    #[inline(always)]
    fn scan_rest_of_some<W: Wanted>(
        self,
        seat: &mut ThreadSeat<T>,
        segment: u32,
        origin: usize,
        start: u32,
        limit: u32,
    ) -> Found
        requires segment { segment < self.shape.now.n }
        requires origin { origin ≡ slot_at self.shape.now.k segment 0 }
        requires start { start < self.shape.now.k }
        requires limit { (2 ≤ limit) × (limit ≤ self.shape.now.k) }
        requires scan { MakesScan self W.stops segment start limit 1 seat.old }
        ensures { EndsScan self.entry W.stops segment start limit 1 seat.old result seat.new }
    {
        let first = origin + start as usize + 1;
        let upper = (limit - 1).min(self.shape.k() - start - 1);
        if upper == 0 {
            return self.scan_row_by_two::<W>(seat, origin, limit - 1);
        }
        let end = first + upper as usize;
        if let Found::Slot { index, word } = self.scan_row::<W>(seat, first, end) {
            return Found::Slot { index, word };
        }
        if upper + 1 == limit {
            return Found::Nothing;
        }
        self.scan_row_by_two::<W>(seat, origin, limit - 1 - upper)
    }

    /// Looks for a filled slot of a segment, or for an empty one: at `limit` slots, cyclically from `start`.
    #[inline(always)]
    pub(crate) fn scan<W: Wanted>(
        self,
        seat: &mut ThreadSeat<T>,
        segment: u32,
        start: u32,
        limit: u32,
    ) -> Found
        requires segment { segment < self.shape.now.n }
        requires start { start < self.shape.now.k }
        requires limit { (1 ≤ limit) × (limit ≤ self.shape.now.k) }
        requires scan { MakesScan self W.stops segment start limit 0 seat.old }
        ensures { EndsScan self.entry W.stops segment start limit 0 seat.old result seat.new }
    {
        let origin = self.shape.slot_index(segment, 0);
        let index = origin + start as usize;
        let word = self.load(seat, index);
        if W::is_wanted(word) {
            return Found::Slot { index, word };
        }
        if limit == 1 {
            return Found::Nothing;
        }
        self.scan_rest_of_some::<W>(seat, segment, origin, start, limit)
    }

    /// Looks for a filled slot of a segment, or for an empty one: at all `limit` slots, cyclically from `start`.
    ///
    /// It takes fewer instructions than `scan`, since the ends of its rows are known with no minimum.
    #[inline(always)]
    pub(crate) fn scan_all<W: Wanted>(
        self,
        seat: &mut ThreadSeat<T>,
        segment: u32,
        start: u32,
        limit: u32,
    ) -> Found
        requires segment { segment < self.shape.now.n }
        requires start { start < self.shape.now.k }
        requires limit { limit ≡ self.shape.now.k }
        requires scan { MakesScan self W.stops segment start limit 0 seat.old }
        ensures { EndsScan self.entry W.stops segment start limit 0 seat.old result seat.new }
    {
        let origin = self.shape.slot_index(segment, 0);
        let index = origin + start as usize;
        let word = self.load(seat, index);
        if W::is_wanted(word) {
            return Found::Slot { index, word };
        }
        // A segment of one slot is left here too, so that longer ones need no test for it.
        if index + 1 == origin + limit as usize {
            if start == 0 {
                return Found::Nothing;
            }
            return self.scan_row_by_two::<W>(seat, origin, start);
        }
        self.scan_rest_of_all::<W>(seat, segment, origin, start, limit)
    }
}
