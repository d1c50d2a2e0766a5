//! Examples.
use crate::*;
use analysis::Choice;
use mapping::Rule;
use std::test::Fail;

#[test]
fn reads_lines_in_turn(rt: HostRuntime) -> Result<(), Fail> {
    let Ok(mut reader) = Reader::new(b"strike,40\npair,7,02\nrow,1") else {
        assert!(rt; false);
        return Ok(());
    };
    let Some(Ok(Line::Strike { number })) = reader.read() else {
        assert!(rt; false);
        return Ok(());
    };
    assert!(rt; number.value() == 40 && number.place == 7);
    assert_eq!(rt; reader.read(), Some(Err(TextFault::Number { field: 2 })));
    assert_eq!(rt; reader.read(), Some(Err(TextFault::Form)));
    assert_eq!(rt; reader.read(), None);
    Ok(())
}

#[test]
fn words_name_analyses_and_rules(rt: HostRuntime) -> Result<(), Fail> {
    assert_eq!(rt; choice_of(b"sections"), Some(Choice::Sections));
    assert_eq!(rt; choice_of(b"section"), None);
    assert_eq!(rt; rule_of(b"divided"), Some(Rule::Divided));
    assert_eq!(rt; rule_of(b"equals"), None);
    Ok(())
}
