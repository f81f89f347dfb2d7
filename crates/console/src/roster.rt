// A file of targets: on each line a number and a range. Empty lines are passed over.
ghost use Rattle.std.specs.Prelude.{◌≡◌, true, IfOk};
ghost use Rattle.kinds.specs.Targets.{is_target};

use crate::files;
use crate::stop::Stop;
use kinds::{Kind, Target, Targets};
use thiserror::Error;

/// What is wrong with a line.
#[derive(Clone, Copy, PartialEq, Eq, Debug, Error)]
pub enum Slip {
    #[error("a target is two words, its number and its range")]
    Words,
    #[error("the number has to be from 1 to 9999")]
    Number,
    #[error("the range has to be from 0 to 99999 metres")]
    Range,
}

// The targets of a file.
pub(crate) fn read<'a>(rt: &HostRuntime, name: &'a str) -> Result<Vec<Target>, Stop<'a>> {
    let bytes = files::read(rt, name)?;
    let text = std::str::from_utf8(&bytes).map_err(|_| Stop::NoText(name))?;
    let mut targets = Vec::new(rt.alloc());
    for (i, line) in text.lines().enumerate() {
        if !line.trim().is_empty() {
            let target = parse(line).map_err(|slip| Stop::WrongLine {
                name,
                line: i + 1,
                slip,
            })?;
            targets.push(target)?;
        }
    }
    Ok(targets)
}

// A number and a range, within their limits.
fn parse(line: &str) -> Result<Target, Slip>
    ensures { IfOk result (λ t. is_target t ≡ true) }
{
    let mut words = line.split_whitespace();
    let (Some(number), Some(range), None) = (words.next(), words.next(), words.next()) else {
        return Err(Slip::Words);
    };
    let number = number.parse::<u16>().map_err(|_| Slip::Number)?;
    let range = range.parse::<u32>().map_err(|_| Slip::Range)?;
    let target = Target { number, range };
    if Targets::admits(target) {
        Ok(target)
    } else if Targets::admits(Target { number, range: 0 }) {
        Err(Slip::Range)
    } else {
        Err(Slip::Number)
    }
}

// The first number that came before, if there is one. By slices: a set would ask for memory only to word a refusal.
pub(crate) fn repeated(targets: &[Target]) -> Option<u16> {
    for (i, target) in targets.iter().enumerate() {
        let number = target.number;
        if targets[..i].iter().any(|earlier| earlier.number == number) {
            return Some(number);
        }
    }
    None
}
