//! Laws of the definitions that the contracts cite: each is proved, since a function here promises it.
ghost use Rattle.reading.specs.Laws.{LinesJoin, LinesLackEnds, LinesFew, FieldsJoin, FieldsLackCommas, TextReads, NumberTexts};
ghost use Rattle.script.specs.Laws.{RefusalFits, PlanFits, RefusalsTell};

use reading::reading_laws_stand;

/// Promises the laws of lines, fields, numbers and answers, and does nothing.
pub fn laws_stand()
    ensures lines { LinesJoin }
    ensures ends { LinesLackEnds }
    ensures few { LinesFew }
    ensures fields { FieldsJoin }
    ensures commas { FieldsLackCommas }
    ensures texts { TextReads }
    ensures numbers { NumberTexts }
    ensures refusals { RefusalFits }
    ensures plans { PlanFits }
{
    reading_laws_stand();
    answers_fit();
}

/// Promises that answers fit 4,096 bytes, and does nothing.
pub fn answers_fit()
    ensures refusals { RefusalFits }
    ensures plans { PlanFits }
{}

/// Promises that part, code and field tell each fault from every other, and does nothing.
pub fn refusals_tell_faults()
    ensures { RefusalsTell }
{}
