//! Three rows in one task, worked by hand.
use crate::*;
use analysis::{Exact, Row};
use mapping::{PlanLine, Rule, Sheet};
use std::alloc::Global;
use std::test::Fail;

fn row(number: u32, cost: u32, period: u32, deadline: u32) -> Row {
    Row {
        number,
        cost,
        period,
        deadline,
        section: 0,
    }
}

fn three_rows(heap: Global) -> Result<Sheet, Fail> {
    let mut sheet = Sheet::new(heap)?;
    sheet.enter(row(1, 1000, 5000, 5000))?;
    sheet.enter(row(2, 2000, 10000, 10000))?;
    sheet.enter(row(3, 1000, 5000, 4000))?;
    Ok(sheet)
}

#[test]
fn every_second_activation_runs_all(rt: HostRuntime) -> Result<(), Fail> {
    let mut sheet = three_rows(rt.alloc())?;
    let mut lines = [PlanLine::default(); 3];
    sheet.map(&Exact, Rule::Divided, &mut lines)?;
    assert_eq!(rt; totals(&sheet, &lines, 1), Ok((5000, 4000, 4000)));
    assert_eq!(rt; load(&sheet, &lines, 1, 0), Ok(4000));
    assert_eq!(rt; load(&sheet, &lines, 1, 1), Ok(2000));
    assert_eq!(rt; cycle(&sheet, &lines, 1), Ok(2));
    sheet.strike(2)?;
    assert_eq!(rt; cycle(&sheet, &lines, 1), Err(TaskFault::Missing));
    assert_eq!(rt;
        load(&sheet, &lines, 1, 1_000_001),
        Err(TaskFault::Activation)
    );
    assert_eq!(rt; totals(&sheet, &lines, 2), Err(TaskFault::Absent));
    Ok(())
}
