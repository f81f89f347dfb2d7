// Any kind, with its items counted.
ghost use Rattle.kinds.specs.Counted.{counted};
ghost use Rattle.std.proofs.Common.{rules};

use super::Kind;
use std::marker::PhantomData;

/// How many items there are, beside what they come to. A count that would pass 4,294,967,295 stops there.
#[derive(Clone, Copy)]
pub struct Tally<T> {
    pub count: u32,
    pub inner: T,
}

/// Whether there are more than k items, or a question of the kind below.
#[derive(Clone, Copy)]
pub enum Ask<Q> {
    Item(u32),
    Inner(Q),
}

/// The kind below, counted: its items, its limit, and its total beside their number.
pub struct Counted<K: Kind> {
    below: PhantomData<K>,
}

impl<K: Kind> Kind for Counted<K> {
    type Item = K::Item;

    type Total = Tally<K::Total>;

    type Question = Ask<K::Question>;

    const MOST: u32 = K::MOST;

    ghost kind = { counted K.Kind.kind };

    ghost lawful = { Prim.search rules };

    fn limit() -> u32 {
        K::limit()
    }

    fn admits(item: K::Item) -> bool {
        K::admits(item)
    }

    fn nothing() -> Tally<K::Total> {
        Tally {
            count: 0,
            inner: K::nothing(),
        }
    }

    fn measure(item: K::Item) -> Tally<K::Total> {
        Tally {
            count: 1,
            inner: K::measure(item),
        }
    }

    fn join(left: Tally<K::Total>, right: Tally<K::Total>) -> Tally<K::Total> {
        Tally {
            count: left.count.saturating_add(right.count),
            inner: K::join(left.inner, right.inner),
        }
    }

    fn meets(total: Tally<K::Total>, question: Ask<K::Question>) -> bool {
        match question {
            Ask::Item(k) => total.count > k,
            Ask::Inner(q) => K::meets(total.inner, q),
        }
    }
}
