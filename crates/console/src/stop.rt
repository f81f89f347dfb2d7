// Why a command ends before all of it is done.
use crate::command::Verb;
use crate::roster::Slip;
use labels::LabelFault;
use planfile::{Cause, FileFault};
use std::alloc::{AllocError, AllocFailed};
use std::{fmt, io};

/// What stands in a command's way. The names are those of the script.
#[derive(Clone, Copy)]
pub enum Stop<'a> {
    /// Standard output fails, or memory: the run ends.
    Run(io::Error),
    /// The first word is the name of no command.
    Unknown(&'a str),
    /// The words after the name are not those that the command takes.
    Usage(Verb),
    Unreadable {
        name: &'a str,
        error: io::Error,
    },
    Unwritable {
        name: &'a str,
        error: io::Error,
    },
    NoText(&'a str),
    /// A line of a file of targets, counted from 1, is none.
    WrongLine {
        name: &'a str,
        line: usize,
        slip: Slip,
    },
    /// A plan file is refused.
    File {
        name: &'a str,
        fault: FileFault,
    },
    Labels {
        name: &'a str,
        fault: LabelFault,
    },
}

impl From<io::Error> for Stop<'_> {
    fn from(error: io::Error) -> Self {
        Stop::Run(error)
    }
}

impl From<AllocError> for Stop<'_> {
    fn from(error: AllocError) -> Self {
        Stop::Run(io::Error::from(error))
    }
}

impl<T: Drop> From<AllocFailed<T>> for Stop<'_> {
    fn from(error: AllocFailed<T>) -> Self {
        Stop::Run(io::Error::from(error))
    }
}

// By hand, and not derived: the text of a refused file is chosen by its cause.
impl fmt::Display for Stop<'_> {
    fn fmt<W: fmt::Write>(&self, f: &mut fmt::Formatter<W>) -> fmt::Result {
        match self {
            Stop::Run(error) => write!(f, "{error}"),
            Stop::Unknown(word) => write!(
                f,
                "There is no command {word}. The command help lists all commands."
            ),
            Stop::Usage(verb) => write!(f, "Nothing was done. The command is: {verb}"),
            Stop::Unreadable { name, error } => write!(
                f,
                "The file {name} cannot be read: {error}."
            ),
            Stop::Unwritable { name, error } => {
                write!(f, "The file {name} cannot be written: {error}.")
            }
            Stop::NoText(name) => write!(f, "The file {name} is no text."),
            Stop::WrongLine { name, line, slip } => {
                write!(
                    f,
                    "Nothing was made. Line {line} of {name} is wrong: {slip}."
                )
            }
            Stop::File { name, fault } => file_refused(f, name, *fault),
            Stop::Labels { name, fault } => write!(f, "{name} is refused with {fault}."),
        }
    }
}

// The console's outputs are as long as a file may be, so what finds no room there is too long for a file.
fn file_refused<W: fmt::Write>(
    f: &mut fmt::Formatter<W>,
    name: &str,
    fault: FileFault,
) -> fmt::Result {
    if fault.cause == Cause::NoRoom {
        let number = fault.number();
        let place = fault.place;
        write!(
            f,
            "{name} is refused with number {number}, layer file, place {place}: the file would have more than 65535 bytes."
        )
    } else {
        write!(f, "{name} is refused with {fault}.")
    }
}
