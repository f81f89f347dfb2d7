// A row of fingers, listed from the left.
ghost use Rattle.std.specs.Prelude.{◌≡◌, ◌≤◌, [], ◌∷◌, length, MatchOption};
ghost use Rattle.cells.specs.Fingers.{listed_some};
ghost use Rattle.joins.specs.Rows.{in_row};

use cells::digits::count_of;
use cells::fingers::Digit;

/// Up to twelve fingers, in the three parts that a joining has.
#[derive(Clone, Copy)]
pub struct Row {
    pub first: Option<Digit>,
    pub second: Option<Digit>,
    pub third: Option<Digit>,
}

impl Row {
    /// How many fingers are left.
    pub fn width(self) -> u8
        ensures is { result ≡ length (in_row self) }
        ensures few { result ≤ 12 }
    {
        count_of(self.first) + (count_of(self.second) + count_of(self.third))
    }

    /// Takes the first finger.
    pub fn take_first(&mut self) -> u32
        requires { 1 ≤ length (in_row self.old) }
        ensures { in_row self.old ≡ result ∷ in_row self.new }
    {
        if let Some(finger) = take_from(&mut self.first) {
            return finger;
        }
        if let Some(finger) = take_from(&mut self.second) {
            return finger;
        }
        if let Some(finger) = take_from(&mut self.third) {
            return finger;
        }
        unreachable()
    }
}

// Takes the first finger, if there is one.
fn take_from(run: &mut Option<Digit>) -> Option<u32>
    ensures { MatchOption result (listed_some run.old ≡ [] × listed_some run.new ≡ []) (λ finger. listed_some run.old ≡ finger ∷ listed_some run.new) }
{
    let digit = (*run)?;
    let (finger, others) = digit.split_first();
    *run = others;
    Some(finger)
}
