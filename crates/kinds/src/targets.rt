// Targets: how near the nearest of them is.
ghost use Rattle.kinds.specs.Targets.{of_targets};
ghost use Rattle.std.proofs.Common.{rules};

use super::Kind;

/// A target: its number, 1 to 9,999, and its range, 0 to 99,999 metres.
#[derive(Clone, Copy, PartialEq, Eq, Debug)]
pub struct Target {
    pub number: u16,
    pub range: u32,
}

/// Whether the least range is at most this.
#[derive(Clone, Copy)]
pub struct Within(pub u32);

/// The kind of targets. A total is the least range; that of nothing is 4,294,967,295.
#[derive(Clone, Copy)]
pub struct Targets;

impl Kind for Targets {
    type Item = Target;

    type Total = u32;

    type Question = Within;

    const MOST: u32 = 65535;

    ghost kind = { of_targets };

    ghost lawful = { Prim.search rules };

    fn limit() -> u32 {
        Self::MOST
    }

    fn admits(item: Target) -> bool {
        1 <= item.number && item.number <= 9999 && item.range <= 99999
    }

    fn nothing() -> u32 {
        u32::MAX
    }

    fn measure(item: Target) -> u32 {
        item.range
    }

    fn join(left: u32, right: u32) -> u32 {
        left.min(right)
    }

    fn meets(total: u32, question: Within) -> bool {
        total <= question.0
    }
}
