// What the console says, in words.
use std::fmt;

/// A number of things, by the name of one.
#[derive(Clone, Copy)]
pub struct Count(pub u32, pub &'static str);

impl fmt::Display for Count {
    fn fmt<W: fmt::Write>(&self, f: &mut fmt::Formatter<W>) -> fmt::Result {
        let Count(number, name) = self;
        let ending = if *number == 1 { "" } else { "s" };
        write!(f, "{number} {name}{ending}")
    }
}

/// A line as it is printed: text as it stands; where it is no plain text, all but visible ASCII as \xNN.
#[derive(Clone, Copy)]
pub struct Shown<'a>(pub &'a [u8]);

impl fmt::Display for Shown<'_> {
    fn fmt<W: fmt::Write>(&self, f: &mut fmt::Formatter<W>) -> fmt::Result {
        match std::str::from_utf8(self.0) {
            Ok(text) if !text.chars().any(|c| c.is_control()) => write!(f, "{text}"),
            _ => escape(self.0, f),
        }
    }
}

// A loop: each byte is written with `?`, which no chain says shorter.
fn escape<W: fmt::Write>(bytes: &[u8], f: &mut fmt::Formatter<W>) -> fmt::Result {
    for byte in bytes {
        match *byte {
            b' '..=b'~' => write!(f, "{}", *byte as char)?,
            other => write!(f, "\\x{other:02X}")?,
        }
    }
    Ok(())
}
