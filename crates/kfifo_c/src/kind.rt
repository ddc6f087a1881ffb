//! The kinds of C's handles: the numbers `KFIFO_ITEMS`, `KFIFO_VALUES` and `KFIFO_CELLS` in `c/include/kfifo.h`.

/// Of a queue of items.
pub(crate) const ITEMS: u32 = 1;
/// Of a queue of values.
pub(crate) const VALUES: u32 = 2;
/// Of a queue of cells.
pub(crate) const CELLS: u32 = 3;
/// Of no handle: what is left of a closed queue of cells.
pub(crate) const LEFT: u32 = 4;
