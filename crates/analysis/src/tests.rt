//! Examples.
use crate::*;
use std::test::Fail;

fn row(number: u32, cost: u32, period: u32, section: u32) -> Row {
    Row {
        number,
        cost,
        period,
        deadline: period,
        section,
    }
}

#[test]
fn third_of_three(rt: HostRuntime) -> Result<(), Fail> {
    let table = [row(1, 1, 4, 0), row(2, 2, 6, 0), row(3, 3, 13, 0)];
    let marks = [Mark::Above, Mark::Above, Mark::Below];
    assert_eq!(rt; Exact.ask(&table, &marks, 2)?, Verdict::OnTime(10));
    assert_eq!(rt; Linear.ask(&table, &marks, 2)?, Verdict::OnTime(13));
    assert_eq!(rt; Exact.ask(&table, &marks, 3), Err(QuestionFault::Shape));
    Ok(())
}

#[test]
fn own_section_does_not_block(rt: HostRuntime) -> Result<(), Fail> {
    let table = [row(1, 1, 4, 0), row(2, 2, 6, 2), row(3, 3, 13, 1)];
    let marks = [Mark::Above, Mark::Below, Mark::Below];
    assert_eq!(rt; Exact.ask(&table, &marks, 1)?, Verdict::OnTime(3));
    assert_eq!(rt;
        Choice::Sections.ask(&table, &marks, 1)?,
        Verdict::OnTime(4)
    );
    Ok(())
}
