// The laws of columns and lines, each stated by the contract of a function that does nothing else.
// Nothing here reads or writes.
ghost use Rattle.column.specs.Laws.{RightJustified, ColumnReadingExact, ColumnReadsBack, ReadIsColumn, ColumnsDiffer};
ghost use Rattle.column.specs.Laws.{LineOfLength, LineReadingExact, LineReadsBack, ReadIsLine, OneLine};
ghost use Rattle.column.specs.Laws.{WrittenColumnReads, WrittenLineReads};

// A column is eleven bytes: blanks, then the numeral of its number.
pub fn column_is_right_justified() -> u8
    ensures { RightJustified }
{
    0
}

// The bytes of a column are read as its number, all others as none.
pub fn column_reading_is_exact() -> u8
    ensures exact { ColumnReadingExact }
    ensures reads_back { ColumnReadsBack }
    ensures read_is_column { ReadIsColumn }
{
    0
}

// Two numbers have two columns.
pub fn columns_differ() -> u8
    ensures { ColumnsDiffer }
{
    0
}

// A line of c columns has 11 * c + 1 bytes.
pub fn line_has_its_length() -> u8
    ensures { LineOfLength }
{
    0
}

// A line is read as its words; other bytes are refused by the first question that gets a no.
pub fn line_reading_is_exact() -> u8
    ensures exact { LineReadingExact }
    ensures reads_back { LineReadsBack }
    ensures read_is_line { ReadIsLine }
{
    0
}

// Bytes begin with at most one line.
pub fn one_line_at_a_place() -> u8
    ensures { OneLine }
{
    0
}

// What was written reads back.
pub fn what_was_written_reads_back() -> u8
    ensures column { WrittenColumnReads }
    ensures line { WrittenLineReads }
{
    0
}
