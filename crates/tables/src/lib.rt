// Making both parity tables from lines, each used as it reads alone. Document 01, "The rectangle".
#![tactic(auto)]

ghost use Rattle.std.specs.Prelude.{◌≡◌, true, ◌+◌, ◌*◌, ◌≤◌, ◌<◌, length, take};
ghost use Rattle.rectangle.specs.Answers.{answer_of};
ghost use Rattle.rectangle.specs.Store.{bytes_at};
ghost use Rattle.rectangle.specs.Tables.{TablesMade, make_tables};
ghost use Rattle.tables.specs.Sweep.{PieceSums, PieceRead, LinesAdded, PieceSummed, RowUnswept, RowSwept, Unswept, Swept};

use line_table::LineTable;
use linecode::place;
use rectangle::answers::Refusal;
use rectangle::lines::{
    ColumnIndex, RowIndex, add_to_column_sum, line_at, put_row_parity, read_into,
};
use rectangle::sizes;
use rectangle::sizes::Sides;

// So many lines of a buffer, at most eight, from line `first` on. They keep their numbers in the buffer, as the definitions number them: a
// part of the buffer would number them anew.
#[derive(Clone, Copy)]
struct Piece<'a> {
    buffer: &'a [u8],
    first: usize,
    count: usize,
    ghost few: { count ≤ 8 },
    ghost inside: { (first + count) * 70 ≤ length buffer.now },
}

impl Piece<'_> {
    // Line i of them.
    fn line(self, i: usize) -> [u8; 70]
        requires { i < self.count }
        ensures { result ≡ bytes_at self.entry.buffer.now (self.entry.first + i) }
    {
        line_at(self.buffer, self.first + i)
    }

    // Whether all read alone as they stand; their sums are known. A loop, and not `all`: that the line lies inside, which a closure would
    // ask at each index, isn't proved from the chain.
    fn all_untouched(self, sums: &[u32]) -> bool
        requires counted { length sums.now ≡ self.count }
        requires summed { PieceSums self.buffer.now self.first self.count sums.now }
        ensures { result ≡ true
            → PieceRead self.entry.buffer.now self.entry.first self.entry.count
            (λ i. bytes_at self.entry.buffer.now (self.entry.first + i)) true }
    {
        for (i, sum) in sums.iter().enumerate() {
            if !reading::is_untouched(self.line(i), *sum) {
                return false;
            }
        }
        true
    }

    // Read alone into the first lines of a room: whether all are accepted. A faulty line ends it; `first_reading`,
    // which keeps each mark, shares the call of `read_into`.
    #[tactic(auto, using(crate::proofs::Pieces::faulty_within))]
    fn read(self, table: &LineTable, sums: &[u32], room: &mut [u8; 560]) -> bool
        requires counted { length sums.now ≡ self.count }
        requires summed { PieceSums self.buffer.now self.first self.count sums.now }
        ensures { PieceRead self.entry.buffer.now self.entry.first self.entry.count
            (bytes_at room.new) result }
    {
        for (i, sum) in sums.iter().enumerate() {
            let mark = read_into(table, *sum, self.buffer, self.first + i, room, i);
            if mark == 4 {
                return false;
            }
        }
        true
    }

    // Each line added to the row's sum, which is returned, and to its column's, from this column on. Lines read alone have spare bits 0, and
    // so have these sums, so that whole bytes are added.
    fn add(self, column: ColumnIndex, sum: [u8; 70], column_sums: &mut [u8; 35840]) -> [u8; 70]
        requires { column.0 + self.count ≤ 512 }
        ensures { LinesAdded (λ i. bytes_at self.entry.buffer.now (self.entry.first + i)) self.entry.count column.0
            column_sums.old column_sums.new sum result }
    {
        let c = column.0;
        let mut total = sum;
        for i in 0..self.count {
            let line = self.line(i);
            // An array that a call gives is bound first: the proof doesn't cover it where it is put at once.
            let next = place::xor_bytes(total, line);
            total = next;
            add_to_column_sum(column_sums, ColumnIndex(c + i), line);
        }
        total
    }

    // Read alone and added to the row's sum, which is returned, and to their columns'; nothing where one is faulty. Lines that read as they
    // stand are added from where they are; only a piece with another one is read into room of its own.
    fn sum(
        self,
        table: &LineTable,
        column: ColumnIndex,
        sum: [u8; 70],
        room: &mut [u8; 560],
        column_sums: &mut [u8; 35840],
    ) -> Option<[u8; 70]>
        requires { column.0 + self.count ≤ 512 }
        ensures { PieceSummed self.entry.buffer.now self.entry.first self.entry.count column.0
            column_sums.old column_sums.new sum result }
    {
        let sums = sweep::sums_of_lines(table, self.buffer, self.first, self.count);
        if self.all_untouched(&sums[..self.count]) {
            return Some(self.add(column, sum, column_sums));
        }
        if !self.read(table, &sums[..self.count], room) {
            return None;
        }
        let read = Piece {
            buffer: room,
            first: 0,
            count: self.count,
        };
        Some(read.add(column, sum, column_sums))
    }
}

// Each line of a row read alone, once, and added to the row's sum, which is returned, and to its column's. A faulty line ends it. It goes by
// pieces of at most eight lines, all summed and then all added: so the processor works on several lines at a time, and finds them near
// when it adds them.
fn sum_row(
    table: &LineTable,
    lines: &[u8],
    first: usize,
    columns: usize,
    room: &mut [u8; 560],
    column_sums: &mut [u8; 35840],
) -> Option<[u8; 70]>
    requires { RowUnswept lines.now first columns column_sums.old }
    ensures { RowSwept lines.now first columns column_sums.old column_sums.new result }
{
    let mut sum = [0u8; 70];
    let mut c = 0;
    // The last piece may be shorter, so that steps of eight would need its length all the same.
    while c < columns {
        let piece = Piece {
            buffer: lines,
            first: first + c,
            count: (columns - c).min(8),
        };
        let next = piece.sum(table, ColumnIndex(c), sum, room, column_sums)?;
        sum = next;
        c += piece.count;
    }
    Some(sum)
}

// Rows and columns summed in one sweep over the lines, in the order in which they lie: whether every line is accepted. A faulty
// line ends it.
fn sweep(
    table: &LineTable,
    sides: Sides,
    lines: &[u8],
    row_sums: &mut [u8; 35840],
    column_sums: &mut [u8; 35840],
) -> bool
    requires { Unswept sides.rows sides.columns lines.now column_sums.old }
    ensures { Swept sides.rows sides.columns lines.now row_sums.new column_sums.new result }
{
    // Room for eight lines, zeroed once and not for each row, since a row may have two lines only.
    let mut room = [0u8; 560];
    for r in 0..sides.rows {
        let first = r * sides.columns;
        let Some(line) = sum_row(table, lines, first, sides.columns, &mut room, column_sums) else {
            return false;
        };
        put_row_parity(row_sums, RowIndex(r), line);
    }
    true
}

// As many bytes of the sums as the table has, copied into it.
fn copy_sums(sums: &[u8], table: &mut [u8])
    requires { length table.old ≤ length sums.now }
    ensures { table.new ≡ take (length table.old) sums.now }
{
    table.copy_from_slice(&sums[..table.len()]);
}

// Both tables made from the lines, or the first refusal that fits, which writes nothing. Sizes and buffers come one by one, as C hands them
// over.
pub fn make_tables(
    rows: usize,
    columns: usize,
    lines: &[u8],
    row_table: &mut [u8],
    column_table: &mut [u8],
) -> Result<(), Refusal>
    ensures { ◌≡◌ {A = TablesMade}
        (record { answer = answer_of result; row_table = row_table.new; column_table = column_table.new })
        (make_tables rows columns lines.now row_table.old column_table.old) }
{
    let sides = sizes::check(
        rows,
        columns,
        lines.len(),
        row_table.len(),
        column_table.len(),
    )?;
    // Refusal 10 writes nothing and is known after the last line only, so the sums are made apart: 512 lines of 70 bytes each.
    let mut row_sums = [0u8; 35840];
    let mut column_sums = [0u8; 35840];
    let table = line_table::lent();
    if !sweep(&table, sides, lines, &mut row_sums, &mut column_sums) {
        return Err(Refusal::Faulty);
    }
    copy_sums(&row_sums, row_table);
    copy_sums(&column_sums, column_table);
    Ok(())
}
