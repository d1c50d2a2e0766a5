//! A table of three rows, mapped under each rule, and what a sheet refuses.
use crate::fault::{MapFault, SheetFault};
use crate::plan::{PlanLine, Rule};
use crate::sheet::Sheet;
use analysis::{Exact, Row};
use std::alloc::Global;
use std::test::Fail;

fn row(number: u32, cost: u32, period: u32, deadline: u32) -> Row {
    Row {
        number,
        cost,
        period,
        deadline,
        section: 0,
    }
}

fn line(task: u32, place: u32, number: u32, response: u32) -> PlanLine {
    PlanLine {
        task,
        place,
        number,
        response,
    }
}

fn three_rows(heap: Global) -> Result<Sheet, Fail> {
    let mut sheet = Sheet::new(heap)?;
    sheet.enter(row(1, 1000, 5000, 5000))?;
    sheet.enter(row(2, 2000, 10000, 10000))?;
    sheet.enter(row(3, 1000, 5000, 4000))?;
    Ok(sheet)
}

#[test]
fn equal_periods_share_a_task(rt: HostRuntime) -> Result<(), Fail> {
    let sheet = three_rows(rt.alloc())?;
    let mut room = [line(9, 9, 9, 9); 4];
    sheet.map(&Exact, Rule::Equal, &mut room)?;
    assert_eq!(rt; room[0], line(1, 1, 2, 4000));
    assert_eq!(rt; room[1], line(2, 1, 3, 2000));
    assert_eq!(rt; room[2], line(2, 2, 1, 2000));
    assert_eq!(rt; room[3], line(9, 9, 9, 9));
    Ok(())
}

#[test]
fn divided_periods_share_a_task(rt: HostRuntime) -> Result<(), Fail> {
    let sheet = three_rows(rt.alloc())?;
    let mut room = [line(9, 9, 9, 9); 3];
    sheet.map(&Exact, Rule::Divided, &mut room)?;
    assert_eq!(rt; room[0], line(1, 1, 3, 4000));
    assert_eq!(rt; room[1], line(1, 2, 1, 4000));
    assert_eq!(rt; room[2], line(1, 3, 2, 4000));
    Ok(())
}

#[test]
fn struck_numbers_are_free(rt: HostRuntime) -> Result<(), Fail> {
    let mut sheet = three_rows(rt.alloc())?;
    assert_eq!(rt; sheet.enter(row(3, 1, 2, 2)), Err(SheetFault::Standing));
    sheet.strike(3)?;
    assert!(rt; sheet.strike(3).is_err());
    sheet.enter(row(3, 1, 2, 2))?;
    assert_eq!(rt; sheet.rows().len(), 3);
    Ok(())
}
