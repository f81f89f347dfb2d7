// The checks of a call.
ghost use Rattle.std.specs.Prelude.{◌≡◌};
ghost use Rattle.memory.specs.Rows.{checked};
ghost use Rattle.memory.specs.Rows.{check as check_of};

use super::fault::StoreFault;

/// A check of a call, which is refused in this way where it fails.
pub fn check(fails: bool, fault: StoreFault) -> Result<(), StoreFault>
    ensures { result ≡ check_of fails fault }
{
    if fails { Err(fault) } else { Ok(()) }
}

/// The refusal of the first check that fails.
pub fn first(checks: &[Result<(), StoreFault>]) -> Result<(), StoreFault>
    ensures { result ≡ checked checks.now }
{
    for check in checks {
        (*check)?;
    }
    Ok(())
}
