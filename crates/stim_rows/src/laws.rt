//! Laws of row files.

ghost use Rattle.stim_rows.specs.Laws.{RowsKeep, NoneDeparts, OneReading};

/// A text of rows departs nowhere from the form of a row file.
pub fn rows_keep()
    ensures { RowsKeep }
{}

/// So a text that departs somewhere is the text of no rows.
pub fn none_departs()
    ensures { NoneDeparts }
{}

/// A text is that of one list of rows.
pub fn one_reading()
    ensures { OneReading }
{}
