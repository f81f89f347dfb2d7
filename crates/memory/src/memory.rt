use cells::cell::{Cell, FreeList};
use kinds::Kind;
use sweep::version::Version;

/// The memory that a store is lent: its cells, its table of version records, and the list of the free cells.
pub struct Memory<'a, K: Kind> {
    pub cells: &'a mut [Cell<K::Item, K::Total>],
    pub table: &'a mut [Version],
    pub free: FreeList,
}
