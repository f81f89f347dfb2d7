// Files byte by byte: what each says, or its cause, number and place.
use super::{Cause, Fields, FileFault, Item, Summary, check, rewrite, write};
use kinds::Target;
use std::process::Abort;
use std::test::Fail;

#[derive(Clone, Copy)]
struct Damaged {
    file: &'static [u8],
    cause: Cause,
    number: u8,
    place: u32,
}

const fn row(file: &'static [u8], cause: Cause, number: u8, place: u32) -> Damaged {
    Damaged {
        file,
        cause,
        number,
        place,
    }
}

fn refused(rt: &impl Abort, file: &[u8], cause: Cause, number: u8, place: u32) {
    let fault = FileFault { cause, place };
    assert_eq!(rt; check(file), Err(fault));
    assert_eq!(rt; fault.number(), number);
}

#[test]
fn damaged_files(rt: HostRuntime) {
    let table: [Damaged; 21] = [
        row(b"", Cause::MissingEnd, 7, 0),
        row(b"\x02", Cause::ShortHeader, 4, 0),
        row(b"\x02\x00\x03AB\n\x7F\x00", Cause::ShortHeader, 4, 6),
        row(b"\x02\x00\x04AB\n", Cause::ShortValue, 4, 0),
        row(b"\x09\x00\x04AB\n", Cause::ShortValue, 4, 0),
        row(b"\x02\x00\x01A", Cause::MissingEnd, 7, 4),
        row(b"\x02\x00\x01A\x09\x00\x00", Cause::UnknownTag, 5, 4),
        row(b"\x02\x00\x00\x7F\x00\x02\x00\x01", Cause::EmptyPiece, 6, 0),
        row(
            b"\x02\x00\x02\nA\x7F\x00\x02\x00\x01",
            Cause::InnerNewline,
            6,
            0,
        ),
        row(
            b"\x02\x00\x02\n\n\x7F\x00\x02\x00\x01",
            Cause::InnerNewline,
            6,
            0,
        ),
        row(b"\x03\x00\x02\x00\x01", Cause::WrongLength, 6, 0),
        row(
            b"\x03\x00\x07\x00\x01\x00\x00\x00\x05\x00",
            Cause::WrongLength,
            6,
            0,
        ),
        row(b"\x7F\x00\x01\x00", Cause::WrongLength, 6, 0),
        row(
            b"\x03\x00\x06\x00\x00\x00\x00\x00\x00",
            Cause::TargetOutside,
            6,
            0,
        ),
        row(
            b"\x03\x00\x06\x27\x10\x00\x00\x00\x00",
            Cause::TargetOutside,
            6,
            0,
        ),
        row(
            b"\x03\x00\x06\x00\x01\x00\x01\x86\xA0",
            Cause::TargetOutside,
            6,
            0,
        ),
        row(
            b"\x03\x00\x06\x00\x01\x00\x00\x00\x05\x03\x00\x06\x00\x01\x00\x00\x00\x06",
            Cause::RepeatedNumber,
            6,
            9,
        ),
        row(
            b"\x02\x00\x01A\x7F\x00\x02\x00\x00",
            Cause::WrongCount,
            7,
            4,
        ),
        row(
            b"\x02\x00\x01A\x7F\x00\x02\x00\x02",
            Cause::WrongCount,
            7,
            4,
        ),
        row(b"\x7F\x00\x02\x00\x00\x00", Cause::TrailingBytes, 7, 5),
        row(
            b"\x7F\x00\x02\x00\x00\x7F\x00\x02\x00\x00",
            Cause::TrailingBytes,
            7,
            5,
        ),
    ];
    for d in &table {
        refused(&rt, d.file, d.cause, d.number, d.place);
    }
}

#[test]
fn longest_file(rt: HostRuntime) -> Result<(), Fail> {
    let long = vec![in rt.alloc(); 0u8; 65536]?;
    refused(&rt, &long, Cause::TooLong, 4, 0);
    assert_eq!(rt;
        check(&long[0..65535]),
        Err(FileFault {
            cause: Cause::UnknownTag,
            place: 0,
        })
    );
    Ok(())
}

#[test]
fn whole_files(rt: HostRuntime) {
    let table: [(&[u8], u32, u32, u32); 3] = [
        (b"\x02\x00\x03AB\n\x7F\x00\x02\x00\x01", 1, 0, 3),
        (b"\x7F\x00\x02\x00\x00", 0, 0, 0),
        (
            b"\x03\x00\x06\x27\x0F\x00\x01\x86\x9F\x02\x00\x01A\x7F\x00\x02\x00\x02",
            1,
            1,
            1,
        ),
    ];
    for (file, pieces, targets, text) in table {
        assert_eq!(rt;
            check(file),
            Ok(Summary {
                pieces,
                targets,
                text,
            })
        );
    }
}

fn target(number: u16, range: u32) -> Target {
    Target { number, range }
}

#[test]
fn smallest_text(rt: HostRuntime) {
    let mut out = [0xEEu8; 13];
    assert_eq!(rt; write(b"AB\n", &[], &mut out), Ok(11));
    assert_eq!(rt; &out, b"\x02\x00\x03AB\n\x7F\x00\x02\x00\x01\xEE\xEE");
}

#[test]
fn refused_writing(rt: HostRuntime) {
    let mut out = [0xEEu8; 27];
    let near = target(9, 250);
    let outside = FileFault {
        cause: Cause::TargetOutside,
        place: 2,
    };
    let twice = FileFault {
        cause: Cause::NumberTwice,
        place: 2,
    };
    let no_room = FileFault {
        cause: Cause::NoRoom,
        place: 0,
    };
    assert_eq!(rt;
        write(b"A", &[near, near, target(0, 1)], &mut out),
        Err(outside)
    );
    assert_eq!(rt; write(b"A", &[near, near], &mut out), Err(twice));
    assert_eq!(rt;
        write(b"A\nBC", &[near, target(7, 250)], &mut out),
        Err(no_room)
    );
    assert_eq!(rt; &out, &[0xEEu8; 27]);
    assert_eq!(rt; outside.number(), 6);
    assert_eq!(rt; twice.number(), 16);
    assert_eq!(rt; no_room.number(), 18);
    assert_eq!(rt; write(b"A\nB", &[near], &mut out), Ok(23));
}

#[test]
fn fields_in_order(rt: HostRuntime) -> Result<(), Fail> {
    let file = b"\x03\x00\x06\x27\x0F\x00\x01\x86\x9F\x02\x00\x01A\x7F\x00\x02\x00\x02";
    let mut items = Fields::of(file);
    match items.next() {
        Some(Item::Target(first)) => assert_eq!(rt; first, target(9999, 99999)),
        _ => return Err(Fail::new("no target")),
    }
    match items.next() {
        Some(Item::Piece(line)) => assert_eq!(rt; line, b"A".as_slice()),
        _ => return Err(Fail::new("no line")),
    }
    match items.next() {
        None => Ok(()),
        Some(_) => Err(Fail::new("more than was written")),
    }
}

#[test]
fn lines_first(rt: HostRuntime) {
    let mut out = [0u8; 18];
    let file = b"\x03\x00\x06\x27\x0F\x00\x01\x86\x9F\x02\x00\x01A\x7F\x00\x02\x00\x02";
    assert_eq!(rt; rewrite(file, &mut out), Ok(18));
    assert_eq!(rt;
        &out,
        b"\x02\x00\x01A\x03\x00\x06\x27\x0F\x00\x01\x86\x9F\x7F\x00\x02\x00\x02"
    );
    assert_eq!(rt;
        rewrite(&file[0..17], &mut out),
        Err(FileFault {
            cause: Cause::ShortValue,
            place: 13,
        })
    );
    let mut small = [0u8; 17];
    assert_eq!(rt;
        rewrite(file, &mut small),
        Err(FileFault {
            cause: Cause::NoRoom,
            place: 0,
        })
    );
}

#[test]
fn a_fault_in_words(rt: HostRuntime) -> Result<(), Fail> {
    let fault = FileFault {
        cause: Cause::WrongCount,
        place: 15,
    };
    let words = format!(in rt.alloc(); "{fault}")?;
    assert_eq!(rt;
        words.as_str(),
        "number 7, layer file, place 15: the end field does not count the fields before it"
    );
    Ok(())
}
