// Targets in label order: nearest range first, and equal ranges in the order of the list.
//
// A target's label is one more than the number of targets that come before it: the nearer ones, and those as near that
// stand earlier in the list. The memory that labels are written to is the caller's.
#![tactic(auto)]

ghost use Rattle.std.specs.Prelude.{◌≡◌, length, if◌then◌else◌, Ok, Err, nat_le};
ghost use Rattle.labels.specs.Faults.{number_of};
ghost use Rattle.labels.specs.Labels.{label, placed, Labelled, Written};

use kinds::Target;
use thiserror::Error;

/// A target with its position in the list, counted from 0. Labels compare by range, by position where ranges are equal,
/// and last by number.
#[derive(Clone, Copy, PartialEq, Eq, PartialOrd, Ord, Debug, Default)]
pub struct Label {
    pub range: u32,
    pub position: usize,
    pub number: u16,
}

/// Why labels are refused. The number of each is what users know it by.
#[derive(Clone, Copy, PartialEq, Eq, Debug, Error)]
pub enum LabelFault {
    /// 18, at place 0: the output has fewer places than there are targets.
    #[error("number {}, layer agenda, place 0: the output is too short", self.number())]
    OutputTooShort,
}

impl LabelFault {
    /// The number of the refusal. Each layer's numbers are its own, listed case by case.
    pub fn number(self) -> u8
        ensures { result ≡ number_of self }
    {
        match self {
            LabelFault::OutputTooShort => 18,
        }
    }
}

/// Writes the targets in label order to the start of the output, the rest of which stays, and gives their number.
pub fn labels(targets: &[Target], out: &mut [Label]) -> Result<usize, LabelFault>
    ensures answer { result ≡ (if nat_le (length targets.now) (length out.old) then Ok (length targets.now) else Err LabelFault.OutputTooShort) }
    ensures output { Written targets.now out.old out.new }
{
    let count = targets.len();
    if count <= out.len() {
        arrange(targets, &mut out[..count]);
        Ok(count)
    } else {
        Err(LabelFault::OutputTooShort)
    }
}

/// Writes the targets in label order to as many places.
fn arrange(targets: &[Target], places: &mut [Label])
    requires { length places.old ≡ length targets.now }
    ensures { Labelled targets.now places.new }
{
    fill(targets, places);
    places.sort_unstable();
}

/// Writes each target with its position to the place of the same position.
fn fill(targets: &[Target], places: &mut [Label])
    requires { length places.old ≡ length targets.now }
    ensures { places.new ≡ placed 0 targets.now }
{
    // By index: a `zip` with `iter_mut` was tried and not proved, and `iter_mut().enumerate()` would index the targets.
    for (i, target) in targets.iter().enumerate() {
        places[i] = at_position(i, *target);
    }
}

/// A target with its position. (A `From` of the pair would be longer, and not say which number is the position.)
fn at_position(position: usize, target: Target) -> Label
    ensures { result ≡ label position target }
{
    Label {
        range: target.range,
        position,
        number: target.number,
    }
}

#[cfg(test)]
mod tests;
