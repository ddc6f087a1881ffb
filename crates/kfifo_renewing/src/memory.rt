//! The memory of the cells of a generation.
ghost use Rattle.std.specs.Prelude.{◌≡◌, ◌≤◌, ◌*◌, ◌+◌, ℕ, IfOk, vec_capacity};
ghost use Rattle.kfifo_live.specs.declared.payload.opening.TheConstants.{MOST_TOKENS};
ghost use Rattle.kfifo_renewing.specs.Memory.{cell_or_sealed, cell_reserved, cell_taken};

use kfifo_live::{Taken, TakenOrSealed};
use std::alloc::{AllocError, Global};
use std::marker::Model;

/// How much memory each cell of a queue has.
#[derive(Clone, Copy, PartialEq, Eq, Debug)]
pub struct CellLayout {
    /// The bytes of a cell. Cells lie side by side, so a cell's size is a multiple of its alignment.
    pub size: u32,
    /// The alignment of a cell, in bytes. The block has so many bytes more than its cells need, so they fit from the
    /// first multiple of it on.
    pub alignment: u32,
}

impl CellLayout {
    /// That of cells without memory.
    pub(crate) fn none() -> CellLayout
        ensures { (result.size ≡ 0) × (result.alignment ≡ 0) }
    {
        CellLayout {
            size: 0,
            alignment: 0,
        }
    }
}

/// Where a cell lies: in which block, and how many cells of the block lie before it.
///
/// With a size and an alignment, the cell begins `index * size` bytes after the first multiple of the alignment in the
/// block. Nothing is read or written through the pointer: that is for whoever has the cell.
#[repr(C)]
#[derive(Clone, Copy)]
pub struct CellAt {
    /// The block of the cells of a generation. It stays where it is until the generation is gone.
    pub block: *mut u8,
    /// The number of the cell in its generation, from 0.
    pub index: u32,
}

/// The memory of the cells of a generation: a block in which nothing is written here.
///
/// Clauses see it as the number of words of 64 bits that there are.
#[derive(Drop)]
pub struct CellMemory {
    // The vector stays empty: the cells lie in what is reserved, which so is touched only where a cell is used.
    words: Vec<u64>,
}

impl Model for CellMemory {
    ghost Value = { ℕ };

    ghost view = { λ m. vec_capacity m.words };
}

impl CellMemory {
    /// The memory of so many cells with this layout.
    pub(crate) fn new(
        alloc: Global,
        layout: CellLayout,
        count: u32,
    ) -> Result<CellMemory, AllocError>
        requires { count ≤ MOST_TOKENS }
        ensures { IfOk result (λ memory. count * layout.size + layout.alignment ≤ 8 * memory) }
    {
        let bytes = u64::from(count) * u64::from(layout.size) + u64::from(layout.alignment);
        let words = Vec::with_capacity(alloc, bytes.div_ceil(8) as usize)?;
        Ok(CellMemory { words })
    }

    /// Where the cell lies that a take got.
    #[inline(always)]
    pub(crate) fn taken(&self, taken: Taken<u32>) -> Taken<CellAt>
        ensures { cell_taken result ≡ taken }
    {
        match taken {
            Taken::Got(index) => Taken::Got(self.at(index)),
            Taken::Empty => Taken::Empty,
            Taken::Busy => Taken::Busy,
            Taken::Worn => Taken::Worn,
        }
    }

    /// The same of a take that may seal the generation.
    pub(crate) fn taken_or_sealed(&self, taken: TakenOrSealed<u32>) -> TakenOrSealed<CellAt>
        ensures { cell_or_sealed result ≡ taken }
    {
        match taken {
            TakenOrSealed::Got(index) => TakenOrSealed::Got(self.at(index)),
            TakenOrSealed::Empty => TakenOrSealed::Empty,
            TakenOrSealed::Sealed => TakenOrSealed::Sealed,
            TakenOrSealed::Busy => TakenOrSealed::Busy,
            TakenOrSealed::Worn => TakenOrSealed::Worn,
        }
    }

    /// Where the cell lies that was reserved.
    #[inline(always)]
    pub(crate) fn reserved(&self, reserved: Option<u32>) -> Option<CellAt>
        ensures { cell_reserved result ≡ reserved }
    {
        match reserved {
            Some(index) => Some(self.at(index)),
            None => None,
        }
    }

    /// The cell with this number.
    #[inline(always)]
    pub(crate) fn at(&self, index: u32) -> CellAt
        ensures { result.index ≡ index }
    {
        CellAt {
            block: block_of(&self.words),
            index,
        }
    }
}

/// Where the memory of this vector lies.
#[inline(always)]
fn block_of(words: &Vec<u64>) -> *mut u8 {
    words.as_ptr() as *mut u8
}
