//! Examples.
use crate::*;
use analysis::{Analysis, Choice, Mark, Row, Verdict};
use std::test::Fail;

const TABLE: [Row; 2] = [
    Row {
        number: 1,
        cost: 3,
        period: 6,
        deadline: 6,
        section: 0,
    },
    Row {
        number: 2,
        cost: 3,
        period: 8,
        deadline: 8,
        section: 0,
    },
];

const MARKS: [Mark; 2] = [Mark::Above, Mark::Below];

#[test]
fn margin_at_its_edge(rt: HostRuntime) -> Result<(), Fail> {
    let below = Choice::Exact;
    let percent = Percent::new(25)?;
    assert_eq!(rt;
        Margin { percent, below }.ask(&TABLE, &MARKS, 1)?,
        Verdict::OnTime(6)
    );
    let percent = Percent::new(26)?;
    assert_eq!(rt;
        Margin { percent, below }.ask(&TABLE, &MARKS, 1)?,
        Verdict::Late
    );
    Ok(())
}

#[test]
fn pairs_above_charge(rt: HostRuntime) -> Result<(), Fail> {
    let ticks = Ticks::new(1)?;
    let below = Charge {
        ticks,
        below: Choice::Linear,
    };
    assert_eq!(rt; below.ask(&TABLE, &MARKS, 0)?, Verdict::OnTime(4));
    let mut pairs = PairList::new(rt.alloc())?;
    pairs.add(2, 1)?;
    assert_eq!(rt; pairs.add(2, 1), Err(LayerFault::Held));
    assert_eq!(rt;
        Pairs { pairs, below }.ask(&TABLE, &MARKS, 1)?,
        Verdict::Late
    );
    Ok(())
}

#[test]
fn a_pile_is_asked_from_its_top(rt: HostRuntime) -> Result<(), Fail> {
    let heap = rt.alloc();
    let ticks = Ticks::new(1)?;
    let below = Pile::Named(Choice::Linear);
    let below = Pile::Charge(Box::new(heap, Charge { ticks, below })?);
    assert_eq!(rt; below.ask(&TABLE, &MARKS, 0)?, Verdict::OnTime(4));
    let percent = Percent::new(34)?;
    let pile = Pile::Margin(Box::new(heap, Margin { percent, below })?);
    assert_eq!(rt; pile.ask(&TABLE, &MARKS, 0)?, Verdict::Late);
    Ok(())
}

#[test]
fn settings_print_their_names(rt: HostRuntime) -> Result<(), Fail> {
    let ticks = Ticks::new(5)?;
    let percent = Percent::new(7)?;
    let text = format!(in rt.alloc(); "{ticks:?} {percent:?}")?;
    assert_eq!(rt; text.as_str(), "Ticks { value: 5 } Percent { value: 7 }");
    Ok(())
}
