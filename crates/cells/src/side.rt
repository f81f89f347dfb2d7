// The ends of a tree.
ghost use Rattle.std.specs.Prelude.{◌≡◌};
ghost use Rattle.model.specs.Ends.{other as across};
ghost use Rattle.cells.specs.Cells.{end, in_order};

/// An end of a tree.
#[derive(Clone, Copy)]
pub enum Side {
    Front,
    Back,
}

impl Side {
    /// The other end.
    pub fn opposite(self) -> Side
        ensures { end result ≡ across (end self) }
    {
        match self {
            Side::Front => Side::Back,
            Side::Back => Side::Front,
        }
    }

    /// What is nearer to this end and what is farther from it, from left to right. Digits and totals that are ordered at
    /// every level (`view`, `make_deep`, `toward`) have a `match` there: as a pair they are copied, which made a push or a
    /// seek a third slower.
    pub fn ordered<A>(self, near: A, far: A) -> (A, A)
        ensures { result ≡ in_order (end self) near far }
    {
        match self {
            Side::Front => (near, far),
            Side::Back => (far, near),
        }
    }
}
