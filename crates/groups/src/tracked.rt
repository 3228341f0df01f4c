// What stands beside each group: its difference, that is the exclusive or of its parity line and its lines as they stand; how many of its
// lines are faulty; and the mark with which its parity line was read. A row's are reached by its RowIndex, a column's by its ColumnIndex.
// The differences stand in the two lent tables, each direction's in its own, where `lines` reaches them; of the counts and marks no other
// body knows where they are kept, though contracts say it: the rows' first, the columns' from number `rows` on.
// Counts and marks are slices, and no arrays of 1024: where a parameter `&mut [u16; 1024]` is passed on beside slices, the check knows no
// length of it after the call. That a group's number is below 1024 is asked as of an index into a slice. Counts and marks stand apart, and so
// do their functions: `peeling` keeps no marks, where counts are written marks are only read, and a function over either element would name
// neither. A mark is a byte, as in `Reading`.
// Rows are a number, and no `Sides`: docs/DECISIONS.md names this module (39), and of its callers a narrower type would ask more.
// Public for `mending`, `parity`, `first_reading`, `repair` and `peeling`, which have tested or made what these ask; not entry points.
ghost use Rattle.std.specs.Prelude.{◌≡◌, not, ◌+◌, ◌-◌, ◌≤◌, ◌<◌, eqb, length, get_or, set};
ghost use Rattle.groups.specs.Lent.{number_of, difference_of, Reached};
ghost use Rattle.groups.specs.declared.tracked.Which.TheVariants.{Row, Column};

use rectangle::lines;
use rectangle::lines::{ColumnIndex, RowIndex};
use std::convert::From;

// A group: a row or a column, each by its own number.
#[derive(Clone, Copy, PartialEq, Eq)]
pub enum Which {
    Row(RowIndex),
    Column(ColumnIndex),
}

impl From<RowIndex> for Which {
    ghost from_gives = { λ row which. which ≡ Row row };

    fn from(row: RowIndex) -> Self {
        Self::Row(row)
    }
}

impl From<ColumnIndex> for Which {
    ghost from_gives = { λ column which. which ≡ Column column };

    fn from(column: ColumnIndex) -> Self {
        Self::Column(column)
    }
}

// Where a group's count and mark stand.
fn number(rows: usize, which: Which) -> usize
    requires { number_of rows which < 1024 }
    ensures { result ≡ number_of rows which }
{
    match which {
        Which::Row(row) => row.0,
        Which::Column(column) => rows + column.0,
    }
}

// A group's difference, out of its own table.
pub fn difference(row_lacks: &[u8], column_lacks: &[u8], which: Which) -> [u8; 70]
    requires { Reached row_lacks.now column_lacks.now which }
    ensures { result ≡ difference_of row_lacks.now column_lacks.now which }
{
    match which {
        Which::Row(row) => lines::row_parity(row_lacks, row),
        Which::Column(column) => lines::column_parity(column_lacks, column),
    }
}

// How many of a group's lines are faulty.
pub fn count(faulty: &[u16], rows: usize, which: Which) -> u16
    requires { (number_of rows which < 1024) × (length faulty.now ≡ 1024) }
    ensures { result ≡ get_or faulty.now (number_of rows which) 0 }
{
    faulty[number(rows, which)]
}

// The mark of a group's parity line.
pub fn parity_mark(parity_marks: &[u8], rows: usize, which: Which) -> u8
    requires { (number_of rows which < 1024) × (length parity_marks.now ≡ 1024) }
    ensures { result ≡ get_or parity_marks.now (number_of rows which) 0 }
{
    parity_marks[number(rows, which)]
}

// Whether a group is usable: its parity line is not faulty.
pub fn is_usable(parity_marks: &[u8], rows: usize, which: Which) -> bool
    requires { (number_of rows which < 1024) × (length parity_marks.now ≡ 1024) }
    ensures { result ≡ not (eqb (get_or parity_marks.now (number_of rows which) 0) 4) }
{
    parity_mark(parity_marks, rows, which) != 4
}

// The mark of a group's parity line, written.
pub fn put_mark(parity_marks: &mut [u8], rows: usize, which: Which, mark: u8)
    requires { (number_of rows which < 1024) × (length parity_marks.old ≡ 1024) }
    ensures { parity_marks.new ≡ set parity_marks.old (number_of rows which) mark }
{
    parity_marks[number(rows, which)] = mark;
}

// How many of a group's lines are faulty, written.
pub fn put_count(faulty: &mut [u16], rows: usize, which: Which, count: u16)
    requires { (number_of rows which < 1024) × (length faulty.old ≡ 1024) }
    ensures { faulty.new ≡ set faulty.old (number_of rows which) count }
{
    faulty[number(rows, which)] = count;
}

// So many more of a group's lines are faulty.
pub fn more(faulty: &mut [u16], rows: usize, which: Which, by: u16)
    requires { (number_of rows which < 1024) × (length faulty.old ≡ 1024)
        × (get_or faulty.old (number_of rows which) 0 + by < 65536) }
    ensures { faulty.new
        ≡ set faulty.old (number_of rows which) (get_or faulty.old (number_of rows which) 0 + by) }
{
    faulty[number(rows, which)] += by;
}

// One less of a group's lines is faulty.
pub fn one_less(faulty: &mut [u16], rows: usize, which: Which)
    requires { (number_of rows which < 1024) × (length faulty.old ≡ 1024)
        × (0 < get_or faulty.old (number_of rows which) 0) }
    ensures { faulty.new
        ≡ set faulty.old (number_of rows which) (get_or faulty.old (number_of rows which) 0 - 1) }
{
    faulty[number(rows, which)] -= 1;
}
