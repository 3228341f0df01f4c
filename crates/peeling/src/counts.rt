// How many lines of each row and of each column are faulty: counted once, and one less where a line is rebuilt.
// Sides, marks and counts are parameters of their own: with them in a struct, whose marks are a `&mut`, each contract would also have to say
// that the sides stay and that the marks are still the caller's, which is longer than the list.
// Public for the crate's other modules; the module is private, and what its functions ask, `forecast` has tested or made.
ghost use Rattle.std.specs.Prelude.{◌≡◌, suc, ◌*◌, ◌<◌, length, get_or, set, replicate};
ghost use Rattle.peeling.specs.Lent.{CountedBy, faulty_before, Sides as Room, Counted, one_if_faulty};

use groups::tracked;
use rectangle::lines::{ColumnIndex, RowIndex};
use rectangle::sizes::Sides;
use std::convert::{From, Into};

// A faulty line counts 1.
fn one_if_faulty(mark: u8) -> u16
    ensures { result ≡ one_if_faulty mark }
{
    u16::from(mark == 4)
}

// The lines of one row: each is counted in its column, and all of them in the row. A whole line adds 0, so that the compiler counts many
// at a step.
fn count_row(marks: &[u8], faulty: &mut [u16], sides: Sides, row: RowIndex)
    requires room { Room sides.rows sides.columns faulty.old × (length marks.now ≡ sides.rows * sides.columns) × (row.0 < sides.rows) }
    requires counted { CountedBy sides.rows sides.columns (faulty_before marks.now (row.0 * sides.columns)) faulty.old }
    ensures { CountedBy sides.rows sides.columns (faulty_before marks.now (suc row.0 * sides.columns)) faulty.new }
{
    let first = row.0 * sides.columns;
    let mut found = 0;
    for c in 0..sides.columns {
        let more = one_if_faulty(marks[first + c]);
        found += more;
        tracked::more(faulty, sides.rows, ColumnIndex(c).into(), more);
    }
    tracked::put_count(faulty, sides.rows, row.into(), found);
}

// All rows are counted.
pub fn count_all(marks: &[u8], faulty: &mut [u16], sides: Sides)
    requires room { Room sides.rows sides.columns faulty.old × (length marks.now ≡ sides.rows * sides.columns) }
    requires none { faulty.old ≡ replicate 1024 0 }
    ensures { Counted sides.rows sides.columns marks.now faulty.new }
{
    for r in 0..sides.rows {
        count_row(marks, faulty, sides, RowIndex(r));
    }
}

// A faulty line is rebuilt: line n.
pub fn rebuild(marks: &mut [u8], faulty: &mut [u16], sides: Sides, n: usize)
    requires { Counted sides.rows sides.columns marks.old faulty.old × (n < sides.rows * sides.columns) × (get_or marks.old n 0 ≡ 4) }
    ensures { (marks.new ≡ set marks.old n 3)
        × Counted sides.rows sides.columns marks.new faulty.new }
{
    let row = sides.row_of(n);
    let column = sides.column_of(n);
    tracked::one_less(faulty, sides.rows, row.into());
    tracked::one_less(faulty, sides.rows, column.into());
    marks[n] = 3;
}
