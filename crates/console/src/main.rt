// The console: commands from standard input, one to a line.
//
// For each it prints the line and then, in plain words, what it did. A refusal or a slip is told in the same way, and
// the script goes on. The run ends early only where standard input or output fails, or memory.
#![tactic(auto)]

mod command;
mod files;
mod hex;
mod label;
mod make;
mod roster;
mod show;
mod stop;
mod words;

use command::Command;
use std::io;
use stop::Stop;

fn main(rt: HostRuntime) -> io::Result<()> {
    for line in rt.lines(rt.alloc()) {
        let line = line?;
        let line = line.as_str().trim();
        if line.is_empty() {
            println!(rt)?;
        } else {
            println!(rt; "> {line}")?;
            answer(&rt, line)?;
        }
    }
    Ok(())
}

// One line of the script.
fn answer(rt: &HostRuntime, line: &str) -> io::Result<()> {
    match obey(rt, line) {
        Ok(()) => Ok(()),
        Err(Stop::Run(error)) => Err(error),
        Err(stop) => println!(rt; "{stop}"),
    }
}

// One command. They are a closed list, so a `match`.
fn obey<'a>(rt: &HostRuntime, line: &'a str) -> Result<(), Stop<'a>> {
    match command::parse(line)? {
        Command::Nothing => Ok(()),
        Command::Help => Ok(help(rt)?),
        Command::Check(file) => check(rt, file),
        Command::Show(file) => show::print_file(rt, file),
        Command::Labels(file) => label::print_file(rt, file),
        Command::Make { text, targets, out } => make::make(rt, text, targets, out),
        Command::Rewrite { file, out } => make::rewrite(rt, file, out),
        Command::Hex(file) => hex::print_file(rt, file),
    }
}

fn help(rt: &HostRuntime) -> io::Result<()> {
    for verb in command::VERBS {
        let purpose = verb.purpose();
        println!(rt; "  {verb:<22} {purpose}")?;
    }
    Ok(())
}

fn check<'a>(rt: &HostRuntime, name: &'a str) -> Result<(), Stop<'a>> {
    let _ = show::accept(rt, name)?;
    Ok(())
}
