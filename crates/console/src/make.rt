// Plan files made of a text and targets, and plan files written again.
use crate::stop::Stop;
use crate::{files, roster, show};
use kinds::Target;
use planfile::MOST_BYTES;

// Both commands lend room for the longest file and cut it to size. One function of a closure that is lent the room was
// tried, and its calls were not proved.

pub(crate) fn make<'a>(
    rt: &HostRuntime,
    text: &'a str,
    targets: &'a str,
    out: &'a str,
) -> Result<(), Stop<'a>> {
    let text = files::read(rt, text)?;
    let list = roster::read(rt, targets)?;
    let mut file = vec![in rt.alloc(); 0u8; MOST_BYTES]?;
    let size = match planfile::write(&text, &list, &mut file) {
        Ok(size) => size,
        Err(fault) => return refuse(rt, Stop::File { name: out, fault }, &list),
    };
    file.truncate(size as usize);
    files::save(rt, out, &file)?;
    println!(rt; "{out} was made.")?;
    show::tell_summary(rt, out, &file)
}

// Tells why no file is made, and only then looks for a number that two targets have, which the fault does not tell.
fn refuse<'a>(rt: &HostRuntime, stop: Stop<'a>, list: &[Target]) -> Result<(), Stop<'a>> {
    println!(rt; "{stop}")?;
    if let Some(number) = roster::repeated(list) {
        println!(rt; "The number {number} is on two lines.")?;
    }
    Ok(())
}

pub(crate) fn rewrite<'a>(rt: &HostRuntime, name: &'a str, out: &'a str) -> Result<(), Stop<'a>> {
    let file = files::read(rt, name)?;
    let mut again = vec![in rt.alloc(); 0u8; MOST_BYTES]?;
    let size = planfile::rewrite(&file, &mut again).map_err(|fault| Stop::File { name, fault })?;
    again.truncate(size as usize);
    files::save(rt, out, &again)?;
    println!(rt; "{name} was read and written again to {out}, with the same lines and targets.")?;
    if file == again {
        println!(rt; "The bytes agree.")?;
    } else {
        println!(rt; "The bytes differ: in {out} the lines come before the targets.")?;
    }
    Ok(())
}
