// What a plan file holds.
use crate::files;
use crate::stop::Stop;
use crate::words::{Count, Shown};
use kinds::Target;
use planfile::{Fields, Item, Summary};
use std::alloc::{AllocError, Global};
use std::io;

// A file that is accepted, and what it holds is told.
pub(crate) fn accept<'a>(rt: &HostRuntime, name: &'a str) -> Result<Vec<u8>, Stop<'a>> {
    let file = files::read(rt, name)?;
    tell_summary(rt, name, &file)?;
    Ok(file)
}

// What a file holds, if it is accepted.
pub(crate) fn tell_summary<'a>(
    rt: &HostRuntime,
    name: &'a str,
    file: &[u8],
) -> Result<(), Stop<'a>> {
    let sum = planfile::check(file).map_err(|fault| Stop::File { name, fault })?;
    summarize(rt, name, sum)?;
    Ok(())
}

fn summarize(rt: &HostRuntime, name: &str, sum: Summary) -> io::Result<()> {
    let lines = Count(sum.pieces, "line");
    let targets = Count(sum.targets, "target");
    let text = Count(sum.text, "byte");
    println!(rt; "{name} is a whole plan file: {lines} with {text} of text, and {targets}.")
}

pub(crate) fn print_file<'a>(rt: &HostRuntime, name: &'a str) -> Result<(), Stop<'a>> {
    let file = accept(rt, name)?;
    print_lines(rt, &file)?;
    print_targets(rt, &file)?;
    Ok(())
}

fn print_lines(rt: &HostRuntime, file: &[u8]) -> io::Result<()> {
    // No `enumerate`: that a file has so few lines is in no contract of its items.
    for (number, line) in (0..=u64::MAX).zip(Fields::of(file).filter_map(line)) {
        print_line(rt, number, line)?;
    }
    Ok(())
}

fn print_line(rt: &HostRuntime, number: u64, line: &[u8]) -> io::Result<()> {
    match line {
        [b'\n'] => println!(rt; "  line {number:>3}"),
        [text @ .., b'\n'] => {
            let text = Shown(text);
            println!(rt; "  line {number:>3}  {text}")
        }
        _ => {
            let text = Shown(line);
            println!(rt; "  line {number:>3}  {text} (with no newline)")
        }
    }
}

fn print_targets(rt: &HostRuntime, file: &[u8]) -> io::Result<()> {
    for Target { number, range } in Fields::of(file).filter_map(target) {
        println!(rt; "  target {number} at {range} m")?;
    }
    Ok(())
}

// The targets of a file, in its order.
pub(crate) fn targets_of(heap: Global, file: &[u8]) -> Result<Vec<Target>, AllocError> {
    Fields::of(file).filter_map(target).collect(heap)
}

fn line(item: Item<'_>) -> Option<&[u8]> {
    match item {
        Item::Piece(line) => Some(line),
        Item::Target(_) => None,
    }
}

fn target(item: Item<'_>) -> Option<Target> {
    match item {
        Item::Target(target) => Some(target),
        Item::Piece(_) => None,
    }
}
