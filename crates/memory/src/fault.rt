// Why a call of a store is refused.
ghost use Rattle.std.specs.Prelude.{◌≡◌};
ghost use Rattle.memory.specs.Faults.{number_of, place_of};

use thiserror::Error;

/// Why a store refuses. Each has its number, by which users know it, and its place: the argument of the call that was
/// made, counted from 1, or 0 where the refusal is of no one argument.
#[derive(Clone, Copy, PartialEq, Eq, Debug, Error)]
#[error("number {}, layer store, place {}: {}", self.number(), self.place(), self.meaning())]
pub enum StoreFault {
    /// 1: fewer than 1 or more than 262,144 cells.
    CellsOutside,
    /// 2: a table of fewer than 1 or more than 64 version records.
    TableOutside,
    /// 8: a place outside the table.
    PlaceOutside(u8),
    /// 9: no version at the place.
    NoVersion(u8),
    /// 10: a destination that is occupied, or equal to an earlier one.
    Occupied(u8),
    /// 11: an item that the kind does not admit.
    NotAdmitted(u8),
    /// 12: nothing to take, or no item at the position.
    NoItem(u8),
    /// 19: more items than a list of the kind may hold.
    TooMany,
    /// 20: fewer free cells than the call needs.
    FewCells(u8),
}

impl StoreFault {
    /// The number of the refusal. Each layer's numbers are its own, listed case by case.
    pub fn number(self) -> u8
        ensures { result ≡ number_of self }
    {
        match self {
            StoreFault::CellsOutside => 1,
            StoreFault::TableOutside => 2,
            StoreFault::PlaceOutside(_) => 8,
            StoreFault::NoVersion(_) => 9,
            StoreFault::Occupied(_) => 10,
            StoreFault::NotAdmitted(_) => 11,
            StoreFault::NoItem(_) => 12,
            StoreFault::TooMany => 19,
            StoreFault::FewCells(_) => 20,
        }
    }

    /// The place of the refusal.
    pub fn place(self) -> u8
        ensures { result ≡ place_of self }
    {
        match self {
            StoreFault::CellsOutside => 1,
            StoreFault::TableOutside => 2,
            StoreFault::PlaceOutside(place)
            | StoreFault::NoVersion(place)
            | StoreFault::Occupied(place)
            | StoreFault::NotAdmitted(place)
            | StoreFault::NoItem(place)
            | StoreFault::FewCells(place) => place,
            StoreFault::TooMany => 0,
        }
    }

    /// What is wrong, in words.
    fn meaning(self) -> &'static str {
        match self {
            StoreFault::CellsOutside => "fewer than 1 or more than 262144 cells",
            StoreFault::TableOutside => "a table of fewer than 1 or more than 64 places",
            StoreFault::PlaceOutside(_) => "a place outside the table",
            StoreFault::NoVersion(_) => "no version at the place",
            StoreFault::Occupied(_) => "a destination that is occupied, or equal to an earlier one",
            StoreFault::NotAdmitted(_) => "an item that the kind does not admit",
            StoreFault::NoItem(_) => "nothing to take, or no item at the position",
            StoreFault::TooMany => "more items than the kind's most",
            StoreFault::FewCells(_) => "fewer free cells than the call needs",
        }
    }
}
