// What is done with the fingers at one end of a level.
ghost use Rattle.std.specs.Prelude.{◌≡◌, ℕ, ◌+◌, ◌-◌, ◌<◌, ◌≤◌, List, [], ◌∷◌, ◌++◌, length, slice_index, slice_set};
ghost use Rattle.cells.specs.Fingers.{listed, listed_some};
ghost use Rattle.cells.specs.Conversions.{IsDigit, HeldAs};
ghost use Rattle.model.specs.Append.{onto};

use super::fingers::{Digit, Fingers};

/// Fingers that are none, or more than four.
#[derive(Clone, Copy)]
pub struct NoDigit;

impl TryFrom<Fingers> for Digit {
    type Error = NoDigit;

    ghost try_from_gives = { IsDigit };

    fn try_from(fingers: Fingers) -> Result<Digit, NoDigit> {
        let Fingers { count, at } = fingers;
        if 1 <= count && count <= 4 {
            Ok(Digit { count, at })
        } else {
            Err(NoDigit)
        }
    }
}

impl From<Digit> for Fingers {
    ghost from_gives = { HeldAs };

    fn from(digit: Digit) -> Fingers {
        let Digit { count, at } = digit;
        Fingers { count, at }
    }
}

impl Digit {
    /// So many fingers, from one to four.
    pub fn of<const N: usize>(fingers: [u32; N]) -> Digit
        requires some { 1 ≤ N }
        requires few { N ≤ 4 }
        ensures { listed result ≡ fingers.entry }
    {
        let mut at = [0; 4];
        at[..N].copy_from_slice(&fingers);
        Digit { count: N as u8, at }
    }

    /// One finger more, before the others.
    pub fn prepend(self, finger: u32) -> Digit
        requires { length (listed self) < 4 }
        ensures { listed result ≡ finger ∷ listed self }
    {
        let [a, b, c, _] = self.at;
        Digit {
            count: self.count + 1,
            at: [finger, a, b, c],
        }
    }

    /// One of the fingers.
    pub fn finger(self, i: u8) -> u32
        requires { i < length (listed self) }
        ensures { result ≡ slice_index (listed self) i }
    {
        self.at[usize::from(i)]
    }

    /// The first finger, and those after it.
    pub fn split_first(self) -> (u32, Option<Digit>)
        ensures { listed self ≡ result.0 ∷ listed_some result.1 }
    {
        let [a, b, c, d] = self.at;
        if self.count == 1 {
            return (a, None);
        }
        let rest = Digit {
            count: self.count - 1,
            at: [b, c, d, 0],
        };
        (a, Some(rest))
    }

    /// The last finger, and those before it.
    pub fn split_last(self) -> (Option<Digit>, u32)
        ensures { listed self ≡ listed_some result.0 ++ (result.1 ∷ []) }
    {
        let last = self.at[usize::from(self.count - 1)];
        if self.count == 1 {
            return (None, last);
        }
        let init = Digit {
            count: self.count - 1,
            at: self.at,
        };
        (Some(init), last)
    }

    /// The same fingers, but for one.
    pub fn with_finger(self, i: u8, finger: u32) -> Digit
        requires { i < length (listed self) }
        ensures { listed result ≡ slice_set (listed self) i finger }
    {
        let mut at = self.at;
        at[usize::from(i)] = finger;
        Digit {
            count: self.count,
            at,
        }
    }

    /// The same fingers from the other end. Written out, since the library's `reverse` of a part of an array is a loop of swaps.
    pub fn reversed(self) -> Digit
        ensures { listed result ≡ onto (listed self) [] }
    {
        let [a, b, c, d] = self.at;
        let at = match self.count {
            1 => [a, 0, 0, 0],
            2 => [b, a, 0, 0],
            3 => [c, b, a, 0],
            _ => [d, c, b, a],
        };
        Digit {
            count: self.count,
            at,
        }
    }
}

/// How many fingers there are. None to four are an Option of a digit: a type of their own would have to be told from a digit
/// wherever there is at least one.
pub fn count_of(run: Option<Digit>) -> u8
    ensures is { result ≡ length (listed_some run) }
    ensures few { result ≤ 4 }
{
    run.map_or(0, |digit| digit.count)
}

/// One finger more, before the others.
pub fn prepend_some(finger: u32, run: Option<Digit>) -> Digit
    requires { length (listed_some run) < 4 }
    ensures { listed result ≡ finger ∷ listed_some run }
{
    match run {
        Some(digit) => digit.prepend(finger),
        None => Digit::of([finger]),
    }
}

/// The same fingers from the other end.
pub fn reversed_some(run: Option<Digit>) -> Option<Digit>
    ensures { listed_some result ≡ onto (listed_some run) [] }
{
    run.map(Digit::reversed)
}
