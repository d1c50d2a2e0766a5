//! The same cases through the calls.
use crate::*;
use analysis::{Analysis, Row};
use layers::{Charge, Margin, Pair, PairList, Pairs, Percent, Ticks};
use mapping::{MapFault, PlanLine, Sheet};
use std::alloc::Global;
use std::process::Abort;
use std::test::Fail;

/// A new sheet into which the rows are entered in their order.
fn entered(heap: Global, rows: &[Row]) -> Result<Sheet, Fail> {
    let mut sheet = Sheet::new(heap)?;
    for row in rows {
        sheet.enter(*row)?;
    }
    Ok(sheet)
}

/// The calls give what is expected of a case under its pile.
fn agrees<A: Analysis>(rt: &impl Abort, heap: Global, case: Case, pile: &A) -> Result<(), Fail> {
    let sheet = entered(heap, case.rows)?;
    let mut room = [PlanLine::default(); 4];
    match case.asked {
        Asked::Mapping {
            rule,
            plan: Some(lines),
        } => {
            let issued = sheet.map(pile, rule, &mut room)?;
            assert_eq!(rt; issued.lines as usize, lines.len());
            assert!(rt; room.starts_with(lines));
        }
        Asked::Mapping { rule, plan: None } => {
            assert_eq!(rt;
                sheet.map(pile, rule, &mut room),
                Err(MapFault::Unschedulable)
            );
        }
        Asked::Verdict {
            marks,
            place,
            verdict,
        } => {
            assert_eq!(rt; pile.ask(case.rows, marks, place), Ok(verdict));
        }
    }
    Ok(())
}

/// A layer of these pairs.
fn paired(heap: Global, pairs: &[Pair]) -> Result<PairList, Fail> {
    let mut list = PairList::new(heap)?;
    for pair in pairs {
        list.add(pair.upper, pair.lower)?;
    }
    Ok(list)
}

/// Makes the pile of a case and tries it.
fn tried(rt: &impl Abort, heap: Global, case: Case) -> Result<(), Fail> {
    let below = case.analysis;
    match case.layer {
        None => agrees(rt, heap, case, &below),
        Some(Layer::Charge(s)) => {
            let ticks = Ticks::new(s)?;
            agrees(rt, heap, case, &Charge { ticks, below })
        }
        Some(Layer::Margin(p)) => {
            let percent = Percent::new(p)?;
            agrees(rt, heap, case, &Margin { percent, below })
        }
        Some(Layer::Pairs(numbers)) => {
            let pairs = paired(heap, numbers)?;
            agrees(rt, heap, case, &Pairs { pairs, below })
        }
    }
}

#[test]
fn calls_give_what_is_expected(rt: HostRuntime) -> Result<(), Fail> {
    for case in worked_tables() {
        tried(&rt, rt.alloc(), case)?;
    }
    Ok(())
}
