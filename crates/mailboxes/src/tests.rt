// A small directory made and read again.
use super::*;

// Room for people and three boxes.
const WORDS: usize = 900;

// The postmaster, and Anna with a second box.
fn made(words: &mut [u64]) -> Result<(), NoRoom> {
    first(words)?;
    add_person(words, 1, 1, b"anna")?;
    add_box(words, 2, 1, b"work")
}

#[test]
fn names_are_found(rt: HostRuntime) {
    let mut words = [0; WORDS];
    assert_eq!(rt; made(&mut words), Ok(()));
    let directory = Directory::new(&words, 2, 3);
    assert_eq!(rt; directory.find_person(b"post"), Some(0));
    assert_eq!(rt; directory.find_person(b"anna"), Some(1));
    assert_eq!(rt; directory.find_person(b"ann"), None);
    assert_eq!(rt; directory.find_person(b"anna\0"), None);
    assert_eq!(rt; directory.find_box(0, b"in"), Some(0));
    assert_eq!(rt; directory.find_box(1, b"in"), Some(1));
    assert_eq!(rt; directory.find_box(1, b"work"), Some(2));
    assert_eq!(rt; directory.find_box(0, b"work"), None);
}

#[test]
fn boxes_are_counted_and_shown(rt: HostRuntime) {
    let mut words = [0; WORDS];
    assert_eq!(rt; made(&mut words), Ok(()));
    let directory = Directory::new(&words, 2, 3);
    assert_eq!(rt; directory.count_boxes(1), 2);
    assert_eq!(rt; directory.next_box(1, 2), Some(2));
    assert_eq!(rt; directory.next_box(0, 1), None);
    let mut row = [9; 29];
    assert_eq!(rt; directory.box_row(2, &mut row), Some(28));
    assert_eq!(rt;
        row,
        *b"\0\0\0\0\0\0\0\x04work\0\0\0\0\0\0\0\x01\0\0\0\0\0\0\0\0\x09"
    );
    assert_eq!(rt; directory.box_row(3, &mut row), None);
}

#[test]
fn without_room_nothing_is_written(rt: HostRuntime) {
    let mut words = [0; WORDS];
    assert_eq!(rt; made(&mut words), Ok(()));
    assert_eq!(rt; add_box(&mut words, 3, 1, b"more"), Err(NoRoom));
    assert_eq!(rt; add_box(&mut words, 2, 64, b"more"), Err(NoRoom));
    assert_eq!(rt; add_person(&mut words, 64, 2, b"eve"), Err(NoRoom));
    assert_eq!(rt; add_person(&mut words, 2, 2, &[b'a'; 65]), Err(NoRoom));
    assert_eq!(rt; first(&mut [0; 875]), Err(NoRoom));
    assert_eq!(rt; Directory::new(&words, 2, 3).find_box(1, b"work"), Some(2));
}
