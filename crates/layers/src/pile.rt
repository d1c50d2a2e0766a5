//! Layers above a named analysis, in any number and order.
ghost use Rattle.layers.specs.Built.{pile_of};
ghost use Rattle.layers.specs.Piles.{meaning_of};
ghost use Rattle.layers.specs.Lemmas.Lawful.{piles_lawful};

use crate::charge::Charge;
use crate::margin::Margin;
use crate::pairs::Pairs;
use analysis::{Analysis, Choice, Mark, QuestionFault, Row, Verdict};

/// One of the three analyses, or a layer above a pile.
#[derive(Drop)]
pub enum Pile {
    Named(Choice),
    Charge(Box<Charge<Pile>>),
    Margin(Box<Margin<Pile>>),
    Pairs(Box<Pairs<Pile>>),
}

impl Analysis for Pile {
    ghost verdict = { λ p. meaning_of (pile_of p) };

    ghost lawful = { λ p. piles_lawful (pile_of p) };

    fn ask(&self, table: &[Row], marks: &[Mark], place: usize) -> Result<Verdict, QuestionFault> {
        // A match and no `dyn`: a boxed trait object in a type that holds one itself gets no proof.
        match self {
            Pile::Named(choice) => choice.ask(table, marks, place),
            Pile::Charge(layer) => layer.ask(table, marks, place),
            Pile::Margin(layer) => layer.ask(table, marks, place),
            Pile::Pairs(layer) => layer.ask(table, marks, place),
        }
    }
}
