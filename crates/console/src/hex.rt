// A file's bytes in hexadecimal, sixteen to a row, each row led by the offset of its first byte.
use crate::files;
use crate::stop::Stop;
use std::io;

pub(crate) fn print_file<'a>(rt: &HostRuntime, name: &'a str) -> Result<(), Stop<'a>> {
    let bytes = files::read(rt, name)?;
    let size = bytes.len();
    println!(rt; "The bytes of {name}, {size} in all:")?;
    for (index, row) in bytes.chunks(16).enumerate() {
        print_row(rt, 16 * index, row)?;
    }
    Ok(())
}

// A loop: each byte is printed with `?`, which no chain says shorter.
fn print_row(rt: &HostRuntime, offset: usize, row: &[u8]) -> io::Result<()> {
    print!(rt; "{offset:>6} ")?;
    for byte in row {
        print!(rt; " {byte:02X}")?;
    }
    println!(rt)
}
