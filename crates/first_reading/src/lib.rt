// The first reading: one sweep over all lines, row after row. Document 01, "Repair". The buffers are parameters of their own, for the reason
// given at `mending::visit`.
// `read_all` is public for `repair`, which has tested or made what it asks; not an entry point.
#![tactic(auto)]

ghost use Rattle.std.specs.Prelude.{◌≡◌, List, [], ◌++◌, ℕ, ◌+◌, ◌*◌, ◌≤◌, ◌<◌, length};
ghost use Rattle.gf2.specs.Word.{Word};
ghost use Rattle.scheme.specs.Layer.{read_line};
ghost use Rattle.scheme.specs.Repair.{read_all};
ghost use Rattle.rectangle.specs.Store.{line_layer, lines_in};
ghost use Rattle.groups.specs.Lent.{Room, Tracked, Carried};
ghost use Rattle.first_reading.specs.Lent.{read_first, Begun, RowOpen, Piece, SomePiece, ReadUpTo, ReadsOn};

use groups::tracked;
use groups::tracked::Which;
use line_table::LineTable;
use linecode::place;
use rectangle::lines;
use rectangle::lines::{ColumnIndex, RowIndex};
use rectangle::sizes::Sides;

// A row whose lines are being added: its difference, and how many of its lines are faulty. They are carried by value, since every line
// of the row changes them.
#[derive(Drop)]
struct OpenRow {
    difference: [u8; 70],
    hurt: u16,
}

// So many lines, at most eight, from line n on are read alone into the line buffer, their marks into the mark buffer. No `Piece` as in
// `tables`: the same numbers name lines of three buffers, two of which are written. Its `read` shares the call of `read_into` alone: there
// a faulty line ends it, and here each mark is kept.
fn read_piece(
    table: &LineTable,
    found: &[u8],
    out: &mut [u8],
    marks: &mut [u8],
    n: usize,
    count: usize,
)
    requires inside { (n + count ≤ length marks.old) × (length marks.old ≤ 262144)
        × (length found.now ≡ length marks.old * 70) × (length out.old ≡ length marks.old * 70) × (count ≤ 8) }
    ensures { Begun out.old marks.old (read_first found.now n)
        → Begun out.new marks.new (read_first found.now (n + count)) }
{
    let sums = sweep::sums_of_lines(table, found, n, count);
    for i in 0..count {
        let m = n + i;
        let mark = lines::read_into(table, sums[i], found, m, out, m);
        marks[m] = mark;
    }
}

// The same lines, now in the line buffer, are added to their row's difference and to their columns', from the given one on; a faulty one
// counts in both, which `tables` doesn't count.
fn add_piece(
    out: &[u8],
    marks: &[u8],
    column_lacks: &mut [u8],
    faulty: &mut [u16],
    sides: Sides,
    n: usize,
    column: ColumnIndex,
    count: usize,
    mut row: OpenRow,
) -> OpenRow
    requires { SomePiece sides.rows out.now marks.now column_lacks.old faulty.old n column.0 count
        row.difference row.hurt }
    ensures { (columns : ℕ) (parity : ℕ → Word) (found : List ℕ) (r : ℕ) (row_lacks : List ℕ) → length row_lacks ≡ sides.rows * 70
        → Piece sides.rows columns parity found out.now marks.now (row_lacks ++ column_lacks.old)
        faulty.old r n column.0 count row.difference row.hurt
        → RowOpen sides.rows columns parity found (row_lacks ++ column_lacks.new) faulty.new r (n + count)
        result.difference result.hurt }
{
    for i in 0..count {
        let m = n + i;
        let own = ColumnIndex(column.0 + i);
        let line = lines::line_at(out, m);
        row.difference = place::xor_bytes(row.difference, line);
        lines::add_to_column_sum(column_lacks, own, line);
        if marks[m] == 4 {
            row.hurt += 1;
            tracked::more(faulty, sides.rows, Which::Column(own), 1);
        }
    }
    row
}

// One row, in pieces of at most eight lines, each of whose lines are all summed, then all copied, then all added: so the processor works on
// several lines at a time, and a piece is no longer than the stores that may wait for the line buffer's memory.
fn read_row(
    table: &LineTable,
    found: &[u8],
    out: &mut [u8],
    marks: &mut [u8],
    row_lacks: &mut [u8],
    column_lacks: &mut [u8],
    faulty: &mut [u16],
    sides: Sides,
    row: RowIndex,
    first: usize,
)
    requires room { Room sides.rows sides.columns out.old marks.old (row_lacks.old ++ column_lacks.old) faulty.old }
    requires row { (length found.now ≡ sides.rows * sides.columns * 70) × (row.0 < sides.rows) × (first ≡ row.0 * sides.columns)
        × (length row_lacks.old ≡ sides.rows * 70) × (length column_lacks.old ≡ sides.columns * 70) }
    requires some { (parity : (ℕ → Word))
        × ReadUpTo sides.rows sides.columns parity found.now out.old marks.old (row_lacks.old ++ column_lacks.old) faulty.old first }
    ensures { ReadsOn sides.rows sides.columns found.now
        out.old marks.old
        (row_lacks.old ++ column_lacks.old) faulty.old
        out.new marks.new (row_lacks.new ++ column_lacks.new)
        faulty.new first (first + sides.columns) }
{
    let mut tally = OpenRow {
        difference: lines::row_parity(row_lacks, row),
        hurt: tracked::count(faulty, sides.rows, Which::Row(row)),
    };
    let mut c = 0;
    // No `step_by`: a row's last piece may be shorter, so a turn goes on by its own piece's length.
    while c < sides.columns {
        let count = (sides.columns - c).min(8);
        let n = first + c;
        read_piece(table, found, out, marks, n, count);
        tally = add_piece(
            out,
            marks,
            column_lacks,
            faulty,
            sides,
            n,
            ColumnIndex(c),
            count,
            tally,
        );
        c += count;
    }
    lines::put_row_parity(row_lacks, row, tally.difference);
    tracked::put_count(faulty, sides.rows, Which::Row(row), tally.hurt);
}

// All rows are read. `first` goes on with the row: a product would have to be shown to fit at each turn.
pub fn read_all(
    table: &LineTable,
    found: &[u8],
    out: &mut [u8],
    marks: &mut [u8],
    row_lacks: &mut [u8],
    column_lacks: &mut [u8],
    faulty: &mut [u16],
    sides: Sides,
)
    requires room { Room sides.rows sides.columns out.old marks.old (row_lacks.old ++ column_lacks.old) faulty.old }
    requires lines { (length found.now ≡ sides.rows * sides.columns * 70) × (length row_lacks.old ≡ sides.rows * 70)
        × (length column_lacks.old ≡ sides.columns * 70) }
    requires some { (parity : (ℕ → Word)) × Tracked sides.rows sides.columns parity (row_lacks.old ++ column_lacks.old) faulty.old [] }
    ensures { (parity : ℕ → Word)
        → Tracked sides.rows sides.columns parity (row_lacks.old ++ column_lacks.old) faulty.old []
        → Carried sides.rows sides.columns parity out.new marks.new
        (row_lacks.new ++ column_lacks.new) faulty.new
        (read_all (read_line line_layer) 0 (lines_in (sides.rows * sides.columns) found.now)) }
{
    let mut first = 0;
    for r in 0..sides.rows {
        read_row(
            table,
            found,
            out,
            marks,
            row_lacks,
            column_lacks,
            faulty,
            sides,
            RowIndex(r),
            first,
        );
        first += sides.columns;
    }
}
