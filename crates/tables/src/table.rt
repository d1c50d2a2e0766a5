//! A table, and what its lines do.
use crate::record::{Layer, Record};
use crate::refusal::Refusal;
use analysis::{Analysis, Choice, MOST_ROWS, Mark, Row, Verdict};
use anyhow::anyhow;
use layers::{Charge, Margin, Pairs, Pile};
use mapping::{Issued, PlanLine, Rule, Sheet};
use std::alloc::Global;
use std::mem;
use tasks::TaskFault;

/// How many layers a table may have.
const MOST_LAYERS: u32 = 3;

/// Why a table's pile cannot be asked; said at the first question.
#[derive(Clone, Copy)]
enum PileFault {
    Pair,
    Layers,
}

/// A table with its sheet and its pile of layers, and the plan lines of which questions about tasks are asked.
#[derive(Drop)]
pub(crate) struct Table {
    /// How many tables were begun before it.
    before: u64,
    rows: Vec<Row>,
    sheet: Sheet,
    pile: Result<Pile, PileFault>,
    /// How many layers were put above the analysis, up to the most there may be; a pile has no length to ask for.
    layers: u32,
    lines: Vec<PlanLine>,
}

/// Writes plan lines.
fn write_lines(rt: &HostRuntime, lines: &[PlanLine]) -> anyhow::Result<()> {
    for line in lines {
        println!(rt;
            "{},{},{},{}",
            line.task, line.place, line.number, line.response
        )?;
    }
    Ok(())
}

/// Writes a refusal.
fn write_refusal(rt: &HostRuntime, refusal: impl Into<Refusal>) -> anyhow::Result<()> {
    println!(rt; "{}", refusal.into())?;
    Ok(())
}

/// Writes a number under its word, or why there is none.
fn write_number(
    rt: &HostRuntime,
    word: &str,
    answer: Result<u32, TaskFault>,
) -> anyhow::Result<()> {
    match answer {
        Ok(number) => println!(rt; "{word},{number}")?,
        Err(fault) => write_refusal(rt, fault)?,
    }
    Ok(())
}

impl Table {
    /// A table without rows, under an analysis, before which so many were begun.
    pub(crate) fn new(heap: Global, before: u64, analysis: Choice) -> anyhow::Result<Table> {
        Ok(Table {
            before,
            rows: Vec::new(heap),
            sheet: Sheet::new(heap)?,
            pile: Ok(Pile::Named(analysis)),
            layers: 0,
            lines: Vec::new(heap),
        })
    }

    /// Does what a record says and writes its answer.
    pub(crate) fn take(&mut self, rt: &HostRuntime, record: Record) -> anyhow::Result<()> {
        let lines = self.lines.as_slice();
        // A match, since a record is one of eleven kinds.
        match record {
            Record::Table(analysis) => self.begin(rt, analysis),
            Record::Row(row) => self.enter(rt, row),
            Record::Strike(number) => self.strike(rt, number),
            Record::Layer(layer) => self.put_above(rt.alloc(), layer),
            Record::Map(rule) => self.map(rt, rule),
            Record::Ask { marks, place } => self.ask(rt, marks.as_slice(), place),
            Record::Line(line) => Ok(self.lines.push(line)?),
            Record::Run(task) => self.write_run(rt, task),
            Record::Totals(task) => self.write_totals(rt, task),
            Record::Load { task, activation } => {
                write_number(
                    rt,
                    "load",
                    tasks::load(&self.sheet, lines, task, activation),
                )
            }
            Record::Cycle(task) => write_number(
                rt,
                "cycle",
                tasks::cycle(&self.sheet, lines, task),
            ),
        }
    }

    /// Puts a new table in place of this one.
    fn begin(&mut self, rt: &HostRuntime, analysis: Choice) -> anyhow::Result<()> {
        let number = self.before.saturating_add(1);
        *self = Table::new(rt.alloc(), number, analysis)?;
        println!(rt; "table,{number}")?;
        Ok(())
    }

    fn enter(&mut self, rt: &HostRuntime, row: Row) -> anyhow::Result<()> {
        self.rows.push(row)?;
        match self.sheet.enter(row) {
            Ok(()) => Ok(()),
            Err(fault) => write_refusal(rt, fault),
        }
    }

    fn strike(&mut self, rt: &HostRuntime, number: u32) -> anyhow::Result<()> {
        match self.sheet.strike(number) {
            Ok(_) => Ok(()),
            Err(fault) => write_refusal(rt, fault),
        }
    }

    /// Puts a layer above the pile; one that cannot stand there leaves its reason.
    fn put_above(&mut self, heap: Global, layer: Layer) -> anyhow::Result<()> {
        let below = match mem::replace(&mut self.pile, Err(PileFault::Layers)) {
            Ok(below) => below,
            Err(fault) => {
                self.pile = Err(fault);
                return Ok(());
            }
        };
        if self.layers >= MOST_LAYERS {
            return Ok(());
        }
        self.layers += 1;
        self.pile = match layer {
            Layer::Charge(ticks) => Ok(Pile::Charge(Box::new(heap, Charge { ticks, below })?)),
            Layer::Margin(percent) => Ok(Pile::Margin(Box::new(heap, Margin { percent, below })?)),
            Layer::Pairs(Some(pairs)) => Ok(Pile::Pairs(Box::new(heap, Pairs { pairs, below })?)),
            Layer::Pairs(None) => Err(PileFault::Pair),
        };
        Ok(())
    }

    /// The pile, where it can be asked.
    fn pile(&self) -> anyhow::Result<&Pile> {
        match &self.pile {
            Ok(pile) => Ok(pile),
            Err(PileFault::Pair) => Err(anyhow!("a pair is refused")),
            Err(PileFault::Layers) => Err(anyhow!("more than three layers")),
        }
    }

    fn map(&mut self, rt: &HostRuntime, rule: Rule) -> anyhow::Result<()> {
        // The room of a mapping is the caller's: as many lines as rows may stand.
        let mut room = [PlanLine::default(); MOST_ROWS];
        match self.sheet.map(self.pile()?, rule, &mut room) {
            Ok(issued) => self.write_plan(rt, issued, &room),
            Err(fault) => write_refusal(rt, fault),
        }
    }

    /// Writes a plan and keeps its lines.
    fn write_plan(
        &mut self,
        rt: &HostRuntime,
        issued: Issued,
        room: &[PlanLine],
    ) -> anyhow::Result<()> {
        let tasks = issued.tasks;
        let count = issued.lines;
        println!(rt; "plan,{tasks},{count}")?;
        let Some(lines) = room.get(0..count as usize) else {
            return Err(anyhow!("too many lines"));
        };
        write_lines(rt, lines)?;
        self.lines = Vec::from_slice(rt.alloc(), lines)?;
        Ok(())
    }

    fn ask(&self, rt: &HostRuntime, marks: &[Mark], place: usize) -> anyhow::Result<()> {
        match self.pile()?.ask(self.rows.as_slice(), marks, place) {
            Ok(Verdict::OnTime(response)) => println!(rt; "ontime,{response}")?,
            Ok(Verdict::Late) => println!(rt; "late")?,
            Err(fault) => write_refusal(rt, fault)?,
        }
        Ok(())
    }

    fn write_run(&self, rt: &HostRuntime, task: u32) -> anyhow::Result<()> {
        match tasks::run(self.lines.as_slice(), task) {
            Ok(lines) => {
                println!(rt; "run,{}", lines.len())?;
                write_lines(rt, lines)
            }
            Err(fault) => write_refusal(rt, fault),
        }
    }

    fn write_totals(&self, rt: &HostRuntime, task: u32) -> anyhow::Result<()> {
        match tasks::totals(&self.sheet, self.lines.as_slice(), task) {
            Ok((period, deadline, cost)) => {
                println!(rt; "totals,{period},{deadline},{cost}")?;
                Ok(())
            }
            Err(fault) => write_refusal(rt, fault),
        }
    }
}
