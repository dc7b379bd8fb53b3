//! The laws of tables: nothing here runs.

ghost use Rattle.field_rows.specs.Laws.{NumbersReadBack, OneSpelling, WrittenStands};

/// Of the tables of one shape at most one is at a place: a table has one spelling, and bytes
/// spell at most one table.
pub fn one_spelling()
    ensures { OneSpelling }
{}

/// The bytes of a number that is at a place give the number back, and the number read from
/// bytes that are there gives the bytes back.
pub fn numbers_read_back()
    ensures { NumbersReadBack }
{}

/// What was written is where it was written, and what lies before and after is as it was.
pub fn written_stands()
    ensures { WrittenStands }
{}
