// Texts of every kind of command, each bound just met and just passed.
use crate::{Command, Kind, UnknownKind, read};
use std::alloc::{AllocError, Global};
use std::iter;
use std::process::Abort;
use std::test::Fail;

// A part of a text.
#[derive(Clone, Copy)]
enum Part {
    Byte(u8),
    Number(u64),
    Zeros(u64),
    // so many zeros, with their count before them
    Counted(u64),
    // person 0, and a box with a name of one byte
    Mailbox,
    // person 0, and one rule that always holds, up to the count of its actions
    OneRule(u64),
}

use Part::{Byte, Counted, Mailbox, Number, OneRule, Zeros};

// A number, as a text spells it.
fn push_number(text: &mut Vec<u8>, number: u64) -> Result<(), AllocError> {
    text.extend_from_slice(&number.to_be_bytes())
}

// So many zeros.
fn push_zeros(text: &mut Vec<u8>, count: u64) -> Result<(), AllocError> {
    text.extend(iter::repeat_n(0, count as usize))
}

// So many zeros, with their count before them.
fn push_counted(text: &mut Vec<u8>, count: u64) -> Result<(), AllocError> {
    push_number(text, count)?;
    push_zeros(text, count)
}

// The text that the parts make, one after another.
fn spelled(heap: Global, parts: &[Part]) -> Result<Vec<u8>, AllocError> {
    let mut text = Vec::new(heap);
    for part in parts {
        match *part {
            Byte(byte) => text.push(byte)?,
            Number(number) => push_number(&mut text, number)?,
            Zeros(count) => push_zeros(&mut text, count)?,
            Counted(count) => push_counted(&mut text, count)?,
            Mailbox => {
                push_number(&mut text, 0)?;
                push_counted(&mut text, 1)?;
            }
            OneRule(actions) => {
                push_number(&mut text, 0)?;
                push_counted(&mut text, 1)?;
                push_number(&mut text, actions)?;
            }
        }
    }
    Ok(text)
}

// Each row is a text, and whether it is a command.
fn check_rows<const N: usize>(
    rt: &(impl Abort + AllocGlobal),
    rows: &[([Part; N], bool)],
) -> Result<(), Fail> {
    for (parts, said) in rows {
        let text = spelled(rt.alloc(), parts)?;
        assert_eq!(rt; read(&text).is_some(), *said);
    }
    Ok(())
}

#[test]
fn people_boxes_and_letters(rt: HostRuntime) -> Result<(), Fail> {
    check_rows(&rt, &[([], false)])?;
    check_rows(
        &rt,
        &[
            ([Byte(0)], false),
            ([Byte(1)], false),
            ([Byte(14)], false),
            ([Byte(255)], false),
        ],
    )?;
    // join: a name of 1 to 64 bytes, and nothing after it
    check_rows(
        &rt,
        &[
            ([Byte(1), Counted(1)], true),
            ([Byte(1), Counted(64)], true),
            ([Byte(1), Counted(0)], false),
            ([Byte(1), Counted(65)], false),
            ([Byte(1), Number(2)], false),
        ],
    )?;
    check_rows(
        &rt,
        &[
            ([Byte(1), Counted(64), Byte(0)], false),
            ([Byte(1), Number(2), Zeros(1)], false),
        ],
    )?;
    // hand in: a house below 16, a person below 64, and a letter of up to 65,000 bytes
    check_rows(
        &rt,
        &[
            ([Byte(2), Number(15), Number(63), Counted(0)], true),
            ([Byte(2), Number(0), Number(0), Counted(65_000)], true),
            ([Byte(2), Number(16), Number(0), Counted(0)], false),
            ([Byte(2), Number(0), Number(64), Counted(0)], false),
            ([Byte(2), Number(0), Number(0), Counted(65_001)], false),
        ],
    )?;
    // boxes of a person, and a push to a house
    check_rows(
        &rt,
        &[
            ([Byte(3), Number(63)], true),
            ([Byte(3), Number(64)], false),
            ([Byte(3), Zeros(7)], false),
            ([Byte(13), Number(15)], true),
            ([Byte(13), Number(16)], false),
        ],
    )?;
    // a new box, a box dropped, a box cleared
    check_rows(
        &rt,
        &[
            ([Byte(4), Number(63), Counted(64)], true),
            ([Byte(4), Number(64), Counted(64)], false),
            ([Byte(5), Number(63), Counted(1)], true),
            ([Byte(5), Number(63), Counted(65)], false),
            ([Byte(10), Number(63), Counted(1)], true),
            ([Byte(10), Number(63), Counted(0)], false),
        ],
    )
}

#[test]
fn letters_in_boxes(rt: HostRuntime) -> Result<(), Fail> {
    // list: 1 to 1,000 letters from any number on
    check_rows(
        &rt,
        &[
            ([Byte(6), Mailbox, Number(u64::MAX), Number(1)], true),
            ([Byte(6), Mailbox, Number(0), Number(1_000)], true),
            ([Byte(6), Mailbox, Number(0), Number(0)], false),
            ([Byte(6), Mailbox, Number(0), Number(1_001)], false),
        ],
    )?;
    // get: up to 65,536 bytes
    check_rows(
        &rt,
        &[
            ([Byte(7), Mailbox, Zeros(16), Number(65_536)], true),
            ([Byte(7), Mailbox, Zeros(16), Number(0)], true),
            ([Byte(7), Mailbox, Zeros(16), Number(65_537)], false),
        ],
    )?;
    // set a mark below 8, on or off
    check_rows(
        &rt,
        &[
            ([Byte(8), Mailbox, Number(1), Byte(7), Byte(1)], true),
            ([Byte(8), Mailbox, Number(1), Byte(0), Byte(0)], true),
            ([Byte(8), Mailbox, Number(1), Byte(8), Byte(0)], false),
            ([Byte(8), Mailbox, Number(1), Byte(0), Byte(2)], false),
        ],
    )?;
    // to another box
    check_rows(
        &rt,
        &[
            ([Byte(9), Mailbox, Number(1), Counted(64)], true),
            ([Byte(9), Mailbox, Number(1), Counted(65)], false),
        ],
    )
}

#[test]
fn rules_of_people(rt: HostRuntime) -> Result<(), Fail> {
    // up to 32 rules: "always", and no action
    check_rows(
        &rt,
        &[
            ([Byte(11), Number(0), Number(0), Zeros(0)], true),
            ([Byte(11), Number(0), Number(32), Zeros(32 * 9)], true),
            ([Byte(11), Number(0), Number(33), Zeros(33 * 9)], false),
            ([Byte(11), Number(0), Number(1), Zeros(8)], false),
        ],
    )?;
    // up to 8 times "keep"
    check_rows(
        &rt,
        &[
            ([Byte(11), OneRule(8), Zeros(8)], true),
            ([Byte(11), OneRule(9), Zeros(9)], false),
            ([Byte(11), OneRule(1), Zeros(0)], false),
        ],
    )?;
    // one or two other actions
    check_rows(
        &rt,
        &[
            ([Byte(11), OneRule(1), Byte(1), Counted(64)], true),
            ([Byte(11), OneRule(1), Byte(1), Counted(65)], false),
            ([Byte(11), OneRule(1), Byte(4), Byte(7)], true),
            ([Byte(11), OneRule(1), Byte(4), Byte(8)], false),
            ([Byte(11), OneRule(2), Byte(2), Byte(5)], true),
            ([Byte(11), OneRule(2), Byte(2), Byte(6)], false),
        ],
    )?;
    // on to somebody at a house
    check_rows(
        &rt,
        &[
            (
                [Byte(11), OneRule(1), Byte(3), Number(15), Number(63)],
                true,
            ),
            (
                [Byte(11), OneRule(1), Byte(3), Number(16), Number(63)],
                false,
            ),
            (
                [Byte(11), OneRule(1), Byte(3), Number(15), Number(64)],
                false,
            ),
        ],
    )
}

#[test]
fn tests_of_letters(rt: HostRuntime) -> Result<(), Fail> {
    check_rows(
        &rt,
        &[
            ([Byte(12), Mailbox, Byte(0), Zeros(0)], true),
            ([Byte(12), Mailbox, Byte(0), Zeros(1)], false),
            ([Byte(12), Mailbox, Byte(3), Number(u64::MAX)], true),
            ([Byte(12), Mailbox, Byte(4), Byte(7)], true),
            ([Byte(12), Mailbox, Byte(4), Byte(8)], false),
            ([Byte(12), Mailbox, Byte(8), Byte(0)], false),
        ],
    )?;
    check_rows(
        &rt,
        &[
            ([Byte(12), Mailbox, Byte(1), Counted(64), Counted(64)], true),
            ([Byte(12), Mailbox, Byte(2), Counted(1), Counted(65)], false),
            ([Byte(12), Mailbox, Byte(6), Byte(0), Byte(0)], true),
            ([Byte(12), Mailbox, Byte(7), Byte(0), Zeros(0)], false),
        ],
    )?;
    // four deep, and five: "neither" over "always", and over itself
    check_rows(
        &rt,
        &[
            (
                [Byte(12), Mailbox, Byte(5), Byte(5), Byte(5), Byte(0)],
                true,
            ),
            (
                [Byte(12), Mailbox, Byte(5), Byte(5), Byte(5), Byte(5)],
                false,
            ),
        ],
    )?;
    check_rows(
        &rt,
        &[(
            [
                Byte(12),
                Mailbox,
                Byte(5),
                Byte(5),
                Byte(5),
                Byte(5),
                Byte(0),
            ],
            false,
        )],
    )
}

#[test]
fn parts_come_out(rt: HostRuntime) {
    let text = b"\x08\0\0\0\0\0\0\0\x02\0\0\0\0\0\0\0\x03box\0\0\0\0\0\0\x01\x05\x07\x01";
    assert_eq!(rt;
        read(text),
        Some(Command::SetMark {
            person: 2,
            mailbox: b"box".as_slice(),
            number: 261,
            mark: 7,
            on: true,
        })
    );
}

#[test]
fn kinds_have_bytes_and_words(rt: HostRuntime) -> Result<(), Fail> {
    let heap = rt.alloc();
    for (byte, word) in [
        (1, "join"),
        (2, "hand in"),
        (3, "boxes"),
        (4, "new box"),
        (5, "drop box"),
        (6, "list"),
        (7, "get"),
        (8, "mark"),
        (9, "to box"),
        (10, "clear"),
        (11, "rules"),
        (12, "find"),
        (13, "push"),
    ] {
        let Ok(kind) = Kind::try_from(byte) else {
            return Err(Fail::new("no kind has this byte"));
        };
        assert_eq!(rt; kind as u8, byte);
        assert_eq!(rt; format!(in heap; "{kind}")?.as_str(), word);
    }
    assert_eq!(rt; Kind::try_from(0), Err(UnknownKind(0)));
    assert_eq!(rt; Kind::try_from(14), Err(UnknownKind(14)));
    Ok(())
}

#[test]
fn commands_have_kinds(rt: HostRuntime) -> Result<(), Fail> {
    let heap = rt.alloc();
    let text = spelled(heap, &[Byte(13), Number(15)])?;
    let Some(command) = read(&text) else {
        return Err(Fail::new("no push is read"));
    };
    assert_eq!(rt; command.kind(), Kind::Push);
    // a command that holds its own bytes
    let command = Command::Join {
        name: spelled(heap, &[Zeros(3)])?,
    };
    assert_eq!(rt; command.kind(), Kind::Join);
    Ok(())
}
