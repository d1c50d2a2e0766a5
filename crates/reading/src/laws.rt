//! Laws of the definitions that the contracts cite: each is proved, since this function promises it.
ghost use Rattle.reading.specs.Laws.{LinesJoin, LinesLackEnds, LinesFew, FieldsJoin, FieldsLackCommas, TextReads, NumberTexts};

/// Promises the laws of lines, fields and numbers, and does nothing.
pub fn reading_laws_stand()
    ensures lines { LinesJoin }
    ensures ends { LinesLackEnds }
    ensures few { LinesFew }
    ensures fields { FieldsJoin }
    ensures commas { FieldsLackCommas }
    ensures texts { TextReads }
    ensures numbers { NumberTexts }
{}
