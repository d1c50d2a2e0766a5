//! The sheet and the pile that a session's lines work on.
ghost use Rattle.reading.specs.Says.{outcome, said};
ghost use Rattle.reading.specs.Says as says;
ghost use Rattle.script.specs.Works.{Matches, Obeys, Takes};
ghost use Rattle.script.specs.Sessions.{start};
ghost use Rattle.std.specs.Prelude.{List, IfOk};
ghost use Rattle.mapping.specs.declared.plan.PlanLine.{PlanLine};

use crate::fault::Fault;
use analysis::{Choice, MOST_ROWS, Row};
use layers::{Charge, Margin, PairList, Pairs, Percent, Ticks};
use mapping::{Issued, PlanLine, Rule, Sheet};
use reading::{Line, TextFault};
use std::alloc::{AllocError, Global};

/// A sheet, and pairs above margin above charge above the analysis that is named last.
#[derive(Drop)]
pub(crate) struct Workspace {
    pub(crate) sheet: Sheet,
    // Here, and not made anew for each line of a script: clearing it costs more than most lines.
    /// The last plan that was issued stands at its front.
    pub(crate) lines: [PlanLine; MOST_ROWS],
    pub(crate) pile: Pairs<Margin<Charge<Choice>>>,
}

impl Workspace {
    /// No row stands, no pair is held, and charge and margin are 0.
    pub(crate) fn new(heap: Global) -> Result<Workspace, AllocError>
        ensures { IfOk result (λ w. Matches w start) }
    {
        let sheet = Sheet::new(heap)?;
        let pairs = PairList::new(heap)?;
        let below = Charge {
            ticks: Ticks::zero(),
            below: Choice::Exact,
        };
        let below = Margin {
            percent: Percent::zero(),
            below,
        };
        Ok(Workspace {
            sheet,
            lines: [PlanLine::default(); MOST_ROWS],
            pile: Pairs { pairs, below },
        })
    }

    /// Enters a row.
    fn enter(&mut self, row: Row) -> Result<Option<Issued>, Fault>
        ensures { (ls : List PlanLine) → Obeys self.old (says.row row) self.new result ls }
    {
        self.sheet.enter(row)?;
        Ok(None)
    }

    /// Strikes the row of a number.
    fn strike(&mut self, number: u32) -> Result<Option<Issued>, Fault>
        ensures { (ls : List PlanLine) → Obeys self.old (says.strike number) self.new result ls }
    {
        self.sheet.strike(number)?;
        Ok(None)
    }

    /// Holds one more pair.
    fn pair(&mut self, upper: u32, lower: u32) -> Result<Option<Issued>, Fault>
        ensures { (ls : List PlanLine) → Obeys self.old (says.pair upper lower) self.new result ls }
    {
        self.pile.pairs.add(upper, lower)?;
        Ok(None)
    }

    /// Sets the charge.
    fn charge(&mut self, ticks: u32) -> Result<Option<Issued>, Fault>
        ensures { (ls : List PlanLine) → Obeys self.old (says.charge ticks) self.new result ls }
    {
        self.pile.below.below.ticks = Ticks::new(ticks)?;
        Ok(None)
    }

    /// Sets the margin.
    fn margin(&mut self, percent: u32) -> Result<Option<Issued>, Fault>
        ensures { (ls : List PlanLine) → Obeys self.old (says.margin percent) self.new result ls }
    {
        self.pile.below.percent = Percent::new(percent)?;
        Ok(None)
    }

    /// Maps the rows that stand, under the named analysis below the layers; a plan's lines go to the front of `lines`.
    fn map(&mut self, choice: Choice, rule: Rule) -> Result<Option<Issued>, Fault>
        ensures { Obeys self.old (says.mapping choice rule) self.new result self.new.lines }
    {
        self.pile.below.below.below = choice;
        let issued = self.sheet.map(&self.pile, rule, &mut self.lines)?;
        Ok(Some(issued))
    }

    /// Does what a line says.
    fn obey(&mut self, line: Line) -> Result<Option<Issued>, Fault>
        ensures { Obeys self.old (said line.entry) self.new result self.new.lines }
    {
        // A match, since a line is one of six kinds, which the definitions tell in the same way.
        match line {
            Line::Row {
                number,
                cost,
                period,
                deadline,
                section,
            } => {
                let row = Row {
                    number: number.value(),
                    cost: cost.value(),
                    period: period.value(),
                    deadline: deadline.value(),
                    section: section.value(),
                };
                self.enter(row)
            }
            Line::Strike { number } => self.strike(number.value()),
            Line::Pair { u, l } => self.pair(u.value(), l.value()),
            Line::Charge { s } => self.charge(s.value()),
            Line::Margin { p } => self.margin(p.value()),
            Line::Map { choice, rule, .. } => self.map(choice, rule),
        }
    }

    /// Takes a line as it was read: a refused one changes nothing.
    pub(crate) fn take(&mut self, read: Result<Line, TextFault>) -> Result<Option<Issued>, Fault>
        ensures { Takes self.old (outcome read.entry) self.new result self.new.lines }
    {
        self.obey(read?)
    }
}
