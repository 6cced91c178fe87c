// A step that is told by a kind and some bytes does what one that is told by an event does.
use super::*;
use std::test::Fail;

// House 1 of 2, with 256 pages.
const IDENTITY: Identity = Identity {
    house: 1,
    houses: 2,
    pages: 256,
};

#[test]
fn both_steps_power_up_alike(rt: HostRuntime) -> Result<(), Fail> {
    let mut by_bytes = vec![in rt.alloc(); 0; MEMORY_LEN]?;
    let mut by_event = vec![in rt.alloc(); 0; MEMORY_LEN]?;
    let mut row = vec![in rt.alloc(); 0; OUT_LEN]?;
    let bytes = b"\0\0\0\0\0\0\0\x01\0\0\0\0\0\0\0\x02\0\0\0\0\0\0\x01\0";
    assert_eq!(rt; step(&mut by_bytes, 0, bytes, &mut row), Told::Read(0));
    assert_eq!(rt;
        tell(&mut by_event, Event::Power(IDENTITY), &mut row),
        Told::Read(0)
    );
    assert!(rt; by_bytes.starts_with(&[1, 0, 0, 1, 2, 256, 0, 0]));
    assert!(rt; by_bytes == by_event);
    Ok(())
}
