// The numbers of targets that came so far.
ghost use Rattle.std.specs.Prelude.{◌≡◌, ℕ, ◌<◌, false, not, ◌||◌, ◌==◌};
ghost use Rattle.planfile.specs.Numbers.{has};

/// A set of target numbers. It is a table, since the library has no heap.
#[derive(Drop)]
pub(crate) struct Numbers {
    seen: [bool; 10000],
}

impl Numbers {
    /// No numbers.
    pub(crate) fn none() -> Numbers
        ensures { (n : ℕ) → has result n ≡ false }
    {
        Numbers {
            seen: [false; 10000],
        }
    }

    /// Adds a number, and says whether it is new.
    pub(crate) fn insert(&mut self, number: u16) -> bool
        requires { number < 10000 }
        ensures fresh { result ≡ not (has self.old number) }
        ensures noted { (n : ℕ) → has self.new n ≡ (has self.old n || number == n) }
    {
        let fresh = !self.seen[usize::from(number)];
        self.seen[usize::from(number)] = true;
        fresh
    }
}
