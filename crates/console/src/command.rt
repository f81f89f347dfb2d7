// A line of the script, as a command.
use crate::stop::Stop;
use std::fmt;

/// What a line asks for. Names of files are as the script has them.
#[derive(Clone, Copy, PartialEq, Eq, Debug)]
pub enum Command<'a> {
    /// A comment, which begins with '#'.
    Nothing,
    Help,
    Check(&'a str),
    Show(&'a str),
    Labels(&'a str),
    Make {
        text: &'a str,
        targets: &'a str,
        out: &'a str,
    },
    Rewrite {
        file: &'a str,
        out: &'a str,
    },
    Hex(&'a str),
}

/// The commands by name. What is known of each stands in a `match` and no table: a `match` that misses a verb is an
/// error, a table that misses one is not.
#[derive(Clone, Copy, PartialEq, Eq, Debug)]
pub enum Verb {
    Help,
    Check,
    Show,
    Labels,
    Make,
    Rewrite,
    Hex,
}

/// All of them, in the order in which `help` lists them.
pub const VERBS: [Verb; 7] = [
    Verb::Help,
    Verb::Check,
    Verb::Show,
    Verb::Labels,
    Verb::Make,
    Verb::Rewrite,
    Verb::Hex,
];

impl<'a> TryFrom<&'a str> for Verb {
    type Error = Stop<'a>;

    fn try_from(name: &'a str) -> Result<Verb, Stop<'a>> {
        match name {
            "help" => Ok(Verb::Help),
            "check" => Ok(Verb::Check),
            "show" => Ok(Verb::Show),
            "labels" => Ok(Verb::Labels),
            "make" => Ok(Verb::Make),
            "rewrite" => Ok(Verb::Rewrite),
            "hex" => Ok(Verb::Hex),
            _ => Err(Stop::Unknown(name)),
        }
    }
}

// The command as it is typed.
impl fmt::Display for Verb {
    fn fmt<W: fmt::Write>(&self, f: &mut fmt::Formatter<W>) -> fmt::Result {
        f.pad(match self {
            Verb::Help => "help",
            Verb::Check => "check FILE",
            Verb::Show => "show FILE",
            Verb::Labels => "labels FILE",
            Verb::Make => "make TEXT TARGETS OUT",
            Verb::Rewrite => "rewrite FILE OUT",
            Verb::Hex => "hex FILE",
        })
    }
}

impl Verb {
    // What it does: a second text, since `Display` is the command as it is typed.
    pub(crate) fn purpose(self) -> &'static str {
        match self {
            Verb::Help => "lists the commands",
            Verb::Check => "says what a plan file holds, or why it is refused",
            Verb::Show =>
                "prints a plan file's lines, counted from 0, and its targets in the file's order",
            Verb::Labels =>
                "prints a plan file's targets by label: nearest first, equal ranges in the file's order",
            Verb::Make =>
                "makes a plan file of a text and of a file with a target, its number and its range, on each line",
            Verb::Rewrite =>
                "reads a plan file, writes it again, lines before targets, and says whether the bytes agree",
            Verb::Hex =>
                "prints any file's bytes in hexadecimal, sixteen to a row after the offset of the first",
        }
    }

    // The command, if the words are those that it takes: none takes more than three.
    fn with<'a>(self, words: [Option<&'a str>; 4]) -> Option<Command<'a>> {
        match (self, words) {
            (Verb::Help, [None, ..]) => Some(Command::Help),
            (Verb::Check, [Some(file), None, ..]) => Some(Command::Check(file)),
            (Verb::Show, [Some(file), None, ..]) => Some(Command::Show(file)),
            (Verb::Labels, [Some(file), None, ..]) => Some(Command::Labels(file)),
            (Verb::Make, [Some(text), Some(targets), Some(out), None]) => {
                Some(Command::Make { text, targets, out })
            }
            (Verb::Rewrite, [Some(file), Some(out), None, _]) => {
                Some(Command::Rewrite { file, out })
            }
            (Verb::Hex, [Some(file), None, ..]) => Some(Command::Hex(file)),
            _ => None,
        }
    }
}

// At most five words are looked at, so that a line costs no memory, however long it is.
pub(crate) fn parse(line: &str) -> Result<Command<'_>, Stop<'_>> {
    let mut words = line.split_whitespace();
    let Some(name) = words.next() else {
        return Ok(Command::Nothing);
    };
    if name.starts_with('#') {
        return Ok(Command::Nothing);
    }
    let verb = Verb::try_from(name)?;
    let words = [words.next(), words.next(), words.next(), words.next()];
    verb.with(words).ok_or(Stop::Usage(verb))
}
