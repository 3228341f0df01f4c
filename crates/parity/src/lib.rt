// The parity lines: read alone before the first reading of the lines, and handed over after the last pass. Request Q-3.
// Public for `repair`, which has tested or made what these ask; not entry points. Tables and marks are slices, and rows and columns
// numbers, for the reasons given at `groups::tracked`.
#![tactic(auto)]

ghost use Rattle.std.specs.Prelude.{◌≡◌, cond, ◌&&◌, map, ℕ, ◌+◌, ◌*◌, ◌≤◌, eqb, length, replicate};
ghost use Rattle.linecode.specs.Code.{up_from};
ghost use Rattle.linecode.specs.Entry.{reading};
ghost use Rattle.scheme.specs.Visit.{Group, State};
ghost use Rattle.scheme.specs.Repair.{faulty_count};
ghost use Rattle.rectangle.specs.Store.{line_layer};
ghost use Rattle.rectangle.specs.Repair.{table_after};
ghost use Rattle.groups.specs.Lent.{number_of};
ghost use Rattle.parity.specs.Lent.{ParitiesIn, Started, MarksOf, Fresh};

use groups::tracked;
use groups::tracked::Which;
use line_table::LineTable;
use linecode::alone::Reading;
use linecode::place;
use rectangle::lines::{ColumnIndex, GroupIndex, RowIndex};

// One direction's groups, which stand one after the other in visiting order: the rows first, the columns after them.
pub trait Direction: GroupIndex {
    // The number of the direction's first group, where there are so many rows.
    ghost first: { ℕ → ℕ };

    // How many groups it has, where there are so many rows and columns.
    ghost total: { ℕ → ℕ → ℕ };

    ghost inside: { (rows columns : ℕ) → first rows + total rows columns ≤ rows + columns };

    fn which(self) -> Which
        ensures { (rows : ℕ) → number_of rows result ≡ first rows + Self.number self };

    fn total(rows: usize, columns: usize) -> usize
        ensures { result ≡ total rows columns };
}

impl Direction for RowIndex {
    ghost use Rattle.std.specs.Prelude.{ℕ};
    ghost use Rattle.std.proofs.Common.{arith};

    ghost first = { λ rows. 0 };

    ghost total = { λ rows columns. rows };

    ghost inside = { λ rows columns. omega arith };

    fn which(self) -> Which {
        Which::Row(self)
    }

    fn total(rows: usize, _columns: usize) -> usize {
        rows
    }
}

impl Direction for ColumnIndex {
    ghost use Rattle.std.proofs.Common.{arith};

    ghost first = { λ rows. rows };

    ghost total = { λ rows columns. columns };

    ghost inside = { λ rows columns. omega arith };

    fn which(self) -> Which {
        Which::Column(self)
    }

    fn total(_rows: usize, columns: usize) -> usize {
        columns
    }
}

// What a group's difference starts from: its parity line as read, or zeros where that is faulty, so that in the end an unusable group's
// difference is the sum of its lines.
fn start_of(read: Reading) -> [u8; 70]
    ensures { result ≡ cond (eqb read.mark 4) (replicate 70 0) read.line }
{
    if read.mark == 4 {
        return [0u8; 70];
    }
    read.line
}

// Every parity line of a direction's table is read alone: its group's difference starts, and its mark is kept; the marks of the groups
// before stay.
pub fn read<I: Direction>(
    table: &LineTable,
    rows: usize,
    columns: usize,
    parity_table: &[u8],
    lacks: &mut [u8],
    parity_marks: &mut [u8],
)
    requires { (rows ≤ 512) × (columns ≤ 512) × (length parity_table.now ≡ I.total rows columns * 70) × (length lacks.old ≡ I.total rows columns * 70)
        × (length parity_marks.old ≡ 1024) }
    ensures { (g : ℕ → Group)
        → ParitiesIn parity_table.now (I.total rows columns) g
        → Started g (I.first rows) (I.total rows columns) lacks.new
        parity_marks.old parity_marks.new }
{
    let total = I::total(rows, columns);
    for k in 0..total {
        let index = I::at(k);
        let read = reading::read(table, index.parity(parity_table));
        tracked::put_mark(parity_marks, rows, index.which(), read.mark);
        index.put_parity(lacks, start_of(read));
    }
}

// Whether a parity line with this mark, a byte as in `Reading`, is made afresh: it is faulty, and no line is left so.
fn made_afresh(mark: u8, whole: bool) -> bool
    ensures { result ≡ (eqb mark 4 && whole) }
{
    mark == 4 && whole
}

// A parity line as it was read with this mark: only one that was rewritten is read again, the others read as found.
fn read_again(table: &LineTable, found: [u8; 70], mark: u8) -> [u8; 70]
    requires { mark ≡ (reading found).mark }
    ensures { result ≡ (reading found).line }
{
    if mark == 1 {
        let read = reading::read(table, found);
        return read.line;
    }
    place::clear_spare(found)
}

// A direction's parity lines are handed over: as read, but for those made afresh, which are their groups' differences already.
pub fn hand_over<I: Direction>(
    table: &LineTable,
    rows: usize,
    columns: usize,
    parity_table: &[u8],
    lacks: &mut [u8],
    parity_marks: &[u8],
    whole: bool,
)
    requires room { (rows ≤ 512) × (columns ≤ 512) × (length parity_table.now ≡ I.total rows columns * 70) × (length lacks.old ≡ I.total rows columns * 70)
        × (length parity_marks.now ≡ 1024) }
    requires marked { MarksOf parity_table.now (I.first rows) (I.total rows columns) parity_marks.now }
    ensures { (g : ℕ → Group) (s : State)
        → ParitiesIn parity_table.now (I.total rows columns) g
        → whole ≡ eqb (faulty_count s) 0
        → Fresh g (I.total rows columns) lacks.old s
        → lacks.new ≡ table_after line_layer s (map g (up_from 0 (I.total rows columns))) }
{
    let total = I::total(rows, columns);
    for k in 0..total {
        let index = I::at(k);
        let mark = tracked::parity_mark(parity_marks, rows, index.which());
        if !made_afresh(mark, whole) {
            let parity = read_again(table, index.parity(parity_table), mark);
            index.put_parity(lacks, parity);
        }
    }
}
