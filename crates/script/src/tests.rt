//! Examples.
use crate::*;
use std::test::Fail;

#[test]
fn reads_lines_in_turn(rt: HostRuntime) -> Result<(), Fail> {
    let Ok(mut reader) = Reader::new(b"strike,40\npair,7,02\nrow,1") else {
        assert!(rt; false);
        return Ok(());
    };
    let Some(Ok(Line::Strike { number })) = reader.read() else {
        assert!(rt; false);
        return Ok(());
    };
    assert!(rt; number.value() == 40 && number.place == 7);
    let Some(Err(TextFault::Number { field })) = reader.read() else {
        assert!(rt; false);
        return Ok(());
    };
    assert!(rt; field == 2);
    let Some(Err(TextFault::Form)) = reader.read() else {
        assert!(rt; false);
        return Ok(());
    };
    assert!(rt; reader.read().is_none());
    Ok(())
}

#[test]
fn a_short_room_takes_no_line(rt: HostRuntime) -> Result<(), Fail> {
    let Ok(mut session) = Session::begin(rt.alloc(), b"strike,8") else {
        assert!(rt; false);
        return Ok(());
    };
    let mut short = [7u8; 4095];
    assert!(rt; session.answer(&mut short).is_err() && short[0] == 7);
    let mut room = [7u8; 4096];
    let Ok(Some(answered)) = session.answer(&mut room) else {
        assert!(rt; false);
        return Ok(());
    };
    assert!(rt; answered.line == 1 && answered.bytes == 14);
    assert!(rt; &room[0..15] == b"refused,1,1,6\n\x07".as_slice());
    assert!(rt; session.answer(&mut short).is_err());
    let Ok(None) = session.answer(&mut room) else {
        assert!(rt; false);
        return Ok(());
    };
    Ok(())
}
