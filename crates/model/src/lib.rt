// A pure model of 2-3 finger trees.
#![tactic(auto)]

mod levels;

ghost use Rattle.model.specs.Statements.{CountsAreLengths, FewestItems, FewCells, PushForms, PushItems, PopKeeps, AppendKeeps, ReplacedKeeps};
ghost use Rattle.model.specs.Statements.{TotalsJoin, TotalsFair, PushMeasures, PopMeasures, AppendMeasures, ReplacedMeasures};
ghost use Rattle.model.specs.Statements.{SeekFinds, SeekDecides, SeekSkips, SeekLands, AlikeSeeks, SplitKeeps, SplitMeasures};
ghost use Rattle.model.specs.Levels.{MostIsLargest, LevelsWithin};

use kinds::Kind;
pub use levels::levels_for;

pub fn counts_are_lengths<I, T>()
    ensures { CountsAreLengths I T }
{}

pub fn few_levels<I, T>()
    ensures fewest { FewestItems I T }
    ensures cells { FewCells I T }
    ensures largest { MostIsLargest }
    ensures within { LevelsWithin I T }
{}

pub fn push_keeps<K: Kind>()
    ensures forms { PushForms K.Kind.kind }
    ensures items { PushItems K.Kind.kind }
{}

pub fn pop_keeps<K: Kind>()
    ensures { PopKeeps K.Kind.kind }
{}

pub fn append_keeps<K: Kind>()
    ensures { AppendKeeps K.Kind.kind }
{}

pub fn replaced_keeps<K: Kind>()
    ensures { ReplacedKeeps K.Kind.kind }
{}

pub fn totals_join<K: Kind>()
    ensures join { TotalsJoin K.Kind.kind }
    ensures fair { TotalsFair K.Kind.kind }
{}

pub fn measures_kept<K: Kind>()
    ensures push { PushMeasures K.Kind.kind }
    ensures pop { PopMeasures K.Kind.kind }
    ensures append { AppendMeasures K.Kind.kind }
    ensures replaced { ReplacedMeasures K.Kind.kind }
{}

pub fn seek_finds<K: Kind>()
    ensures finds { SeekFinds K.Kind.kind }
    ensures decides { SeekDecides K.Kind.kind }
    ensures skips { SeekSkips K.Kind.kind }
    ensures lands { SeekLands K.Kind.kind }
    ensures alike { AlikeSeeks K.Kind.kind }
{}

pub fn split_parts<K: Kind>()
    ensures keeps { SplitKeeps K.Kind.kind }
    ensures measures { SplitMeasures K.Kind.kind }
{}

#[cfg(test)]
mod tests;
