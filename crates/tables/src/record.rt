//! The records of the input.
use analysis::{Choice, Mark, Row};
use anyhow::anyhow;
use layers::{PairList, Percent, Ticks};
use mapping::{PlanLine, Rule};
use reading::{choice_of, rule_of};
use std::alloc::Global;

/// A layer.
#[derive(Drop)]
pub(crate) enum Layer {
    Charge(Ticks),
    Margin(Percent),
    /// None where a pair is refused.
    Pairs(Option<PairList>),
}

/// What a line says.
#[derive(Drop)]
pub(crate) enum Record {
    Table(Choice),
    Row(Row),
    Strike(u32),
    Layer(Layer),
    Map(Rule),
    Ask { marks: Vec<Mark>, place: usize },
    Line(PlanLine),
    Run(u32),
    Totals(u32),
    Load { task: u32, activation: u32 },
    Cycle(u32),
}

/// A table under the analysis of this name.
fn table_of(name: &str) -> anyhow::Result<Record> {
    let choice = choice_of(name.as_bytes()).ok_or_else(|| anyhow!("unknown analysis"))?;
    Ok(Record::Table(choice))
}

/// A mapping by the rule of this name.
fn map_of(name: &str) -> anyhow::Result<Record> {
    let rule = rule_of(name.as_bytes()).ok_or_else(|| anyhow!("unknown rule"))?;
    Ok(Record::Map(rule))
}

/// The marks that letters stand for.
fn marks_of(heap: Global, letters: &str) -> anyhow::Result<Vec<Mark>> {
    let mut marks = Vec::new(heap);
    for letter in letters.bytes() {
        let mark = match letter {
            b'a' => Mark::Above,
            b'b' => Mark::Below,
            _ => return Err(anyhow!("unknown mark")),
        };
        marks.push(mark)?;
    }
    Ok(marks)
}

/// A question: its marks and its place.
fn question_of(heap: Global, fields: &str) -> anyhow::Result<Record> {
    let Some((letters, place)) = fields.split_once(',') else {
        return Err(anyhow!("a question has marks and a place"));
    };
    Ok(Record::Ask {
        marks: marks_of(heap, letters)?,
        place: place.parse::<usize>()?,
    })
}

/// The numbers of a record.
fn numbers_of(heap: Global, fields: &str) -> anyhow::Result<Vec<u32>> {
    let mut numbers = Vec::new(heap);
    if fields.is_empty() {
        return Ok(numbers);
    }
    for field in fields.split(',') {
        numbers.push(field.parse::<u32>()?)?;
    }
    Ok(numbers)
}

/// The pairs that numbers in a row stand for; none where one is refused.
fn pairs_of(heap: Global, numbers: &[u32]) -> anyhow::Result<Option<PairList>> {
    let mut pairs = PairList::new(heap)?;
    for two in numbers.chunks_exact(2) {
        if pairs.add(two[0], two[1]).is_err() {
            return Ok(None);
        }
    }
    Ok(Some(pairs))
}

/// A layer that raises every cost.
fn charge_of(ticks: u32) -> anyhow::Result<Record> {
    let ticks = Ticks::new(ticks).map_err(|_| anyhow!("charge out of range"))?;
    Ok(Record::Layer(Layer::Charge(ticks)))
}

/// A layer that keeps a part of the deadline free.
fn margin_of(percent: u32) -> anyhow::Result<Record> {
    let percent = Percent::new(percent).map_err(|_| anyhow!("margin out of range"))?;
    Ok(Record::Layer(Layer::Margin(percent)))
}

/// A record of numbers.
fn numbered(heap: Global, word: &str, numbers: &[u32]) -> anyhow::Result<Record> {
    match (word, numbers) {
        ("strike", &[number]) => Ok(Record::Strike(number)),
        ("charge", &[ticks]) => charge_of(ticks),
        ("margin", &[percent]) => margin_of(percent),
        ("pairs", numbers) => Ok(Record::Layer(Layer::Pairs(pairs_of(heap, numbers)?))),
        ("run", &[task]) => Ok(Record::Run(task)),
        ("totals", &[task]) => Ok(Record::Totals(task)),
        ("cycle", &[task]) => Ok(Record::Cycle(task)),
        ("load", &[task, activation]) => Ok(Record::Load { task, activation }),
        ("line", &[task, place, number, response]) => Ok(Record::Line(PlanLine {
            task,
            place,
            number,
            response,
        })),
        ("row", &[number, cost, period, deadline, section]) => Ok(Record::Row(Row {
            number,
            cost,
            period,
            deadline,
            section,
        })),
        _ => Err(anyhow!("unknown record")),
    }
}

impl Record {
    /// What a line of this word and these fields says.
    pub(crate) fn of(heap: Global, word: &str, fields: &str) -> anyhow::Result<Record> {
        match word {
            "table" => table_of(fields),
            "map" => map_of(fields),
            "ask" => question_of(heap, fields),
            _ => numbered(heap, word, numbers_of(heap, fields)?.as_slice()),
        }
    }
}
