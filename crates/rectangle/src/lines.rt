// Lines in a lent buffer. The functions of this module are public because the crates above go through them alone; each asks that
// the line lies inside the buffer, or that there are columns, which the entry points have tested. That a line lies inside is asked at each
// call, as of an index into a slice: no type could promise it of the number and the buffer together.
ghost use Rattle.std.specs.Prelude.{◌≡◌, ℕ, suc, ◌*◌, ◌/◌, ◌%◌, ◌≤◌, ◌<◌, length};
ghost use Rattle.linecode.specs.Places.{places, xor_bytes};
ghost use Rattle.sweep.specs.Sums.{both_sums};
ghost use Rattle.rectangle.specs.Store.{bytes_at, put_bytes, put_line, alone_at};
ghost use Rattle.rectangle.specs.Change.{add_to};

use crate::sizes::Sides;
use line_table::LineTable;
use linecode::place;

// The number of a row, and of a column: two tuple structs, as document 01 names them, and not one with a parameter. They are counted apart,
// so that neither table is reached with the other's number.
#[derive(Clone, Copy, PartialEq, Eq)]
pub struct RowIndex(pub usize);

#[derive(Clone, Copy, PartialEq, Eq)]
pub struct ColumnIndex(pub usize);

// What rows and columns have in common: each has a line of its own in a table of parity lines, and in sums laid out as a table.
pub trait GroupIndex: Copy + Drop {
    ghost number: { Self → ℕ };

    // The n-th row or column.
    fn at(n: usize) -> Self
        ensures { number result ≡ n };

    fn number(self) -> usize
        ensures { result ≡ number self };

    // Its parity line.
    final fn parity(self, table: &[u8]) -> [u8; 70]
        requires { suc (number self) * 70 ≤ length table.now }
        ensures { result ≡ bytes_at table.now (number self) }
    {
        line_at(table, self.number())
    }

    // Its parity line, written.
    final fn put_parity(self, table: &mut [u8], line: [u8; 70])
        requires { suc (number self) * 70 ≤ length table.old }
        ensures { table.new ≡ put_bytes table.old (number self) line }
    {
        put_line(table, self.number(), line);
    }

    // A line put into its sum by exclusive or, byte by byte: whole bytes are added, where the spare bits of both are 0.
    final fn add_to_sum(self, sums: &mut [u8], line: [u8; 70])
        requires { suc (number self) * 70 ≤ length sums.old }
        ensures { sums.new ≡ put_bytes sums.old (number self) (xor_bytes (bytes_at sums.old (number self)) line) }
    {
        let before = self.parity(sums);
        let after = place::xor_bytes(before, line);
        self.put_parity(sums, after);
    }

    // A line put into its parity line by exclusive or.
    final fn add_to(self, table: &mut [u8], line: [u8; 70])
        requires { suc (number self) * 70 ≤ length table.old }
        ensures { table.new ≡ add_to table.old (number self) (places line) }
    {
        let parity = self.parity(table);
        let sum = place::xor_lines(parity, line);
        self.put_parity(table, sum);
    }
}

impl GroupIndex for RowIndex {
    ghost number = { λ row. row.0 };

    fn at(n: usize) -> RowIndex {
        RowIndex(n)
    }

    fn number(self) -> usize {
        self.0
    }
}

impl GroupIndex for ColumnIndex {
    ghost number = { λ column. column.0 };

    fn at(n: usize) -> ColumnIndex {
        ColumnIndex(n)
    }

    fn number(self) -> usize {
        self.0
    }
}

// The tables and sums of rows and of columns, each by functions of its own that take its own index: with the other's they don't compile. A
// body that knows which of the two it works on goes by these; the trait serves one that works on either.
// The parity line of a row.
pub fn row_parity(row_table: &[u8], row: RowIndex) -> [u8; 70]
    requires { suc row.0 * 70 ≤ length row_table.now }
    ensures { result ≡ bytes_at row_table.now row.0 }
{
    row.parity(row_table)
}

// The parity line of a column.
pub fn column_parity(column_table: &[u8], column: ColumnIndex) -> [u8; 70]
    requires { suc column.0 * 70 ≤ length column_table.now }
    ensures { result ≡ bytes_at column_table.now column.0 }
{
    column.parity(column_table)
}

// The parity line of a row, written.
pub fn put_row_parity(row_table: &mut [u8], row: RowIndex, line: [u8; 70])
    requires { suc row.0 * 70 ≤ length row_table.old }
    ensures { row_table.new ≡ put_bytes row_table.old row.0 line }
{
    row.put_parity(row_table, line);
}

// The parity line of a column, written.
pub fn put_column_parity(column_table: &mut [u8], column: ColumnIndex, line: [u8; 70])
    requires { suc column.0 * 70 ≤ length column_table.old }
    ensures { column_table.new ≡ put_bytes column_table.old column.0 line }
{
    column.put_parity(column_table, line);
}

// A line put into a row's sum by exclusive or, byte by byte.
pub fn add_to_row_sum(row_sums: &mut [u8], row: RowIndex, line: [u8; 70])
    requires { suc row.0 * 70 ≤ length row_sums.old }
    ensures { row_sums.new
        ≡ put_bytes row_sums.old row.0 (xor_bytes (bytes_at row_sums.old row.0) line) }
{
    row.add_to_sum(row_sums, line);
}

// A line put into a column's sum by exclusive or, byte by byte.
pub fn add_to_column_sum(column_sums: &mut [u8], column: ColumnIndex, line: [u8; 70])
    requires { suc column.0 * 70 ≤ length column_sums.old }
    ensures { column_sums.new
        ≡ put_bytes column_sums.old column.0 (xor_bytes (bytes_at column_sums.old column.0) line) }
{
    column.add_to_sum(column_sums, line);
}

// A line put into the parity line of a row by exclusive or.
pub fn add_to_row(row_table: &mut [u8], row: RowIndex, line: [u8; 70])
    requires { suc row.0 * 70 ≤ length row_table.old }
    ensures { row_table.new ≡ add_to row_table.old row.0 (places line) }
{
    row.add_to(row_table, line);
}

// A line put into the parity line of a column by exclusive or.
pub fn add_to_column(column_table: &mut [u8], column: ColumnIndex, line: [u8; 70])
    requires { suc column.0 * 70 ≤ length column_table.old }
    ensures { column_table.new ≡ add_to column_table.old column.0 (places line) }
{
    column.add_to(column_table, line);
}

impl Sides {
    // The row of line n.
    pub fn row_of(self, n: usize) -> RowIndex
        ensures { result.0 ≡ n / self.columns }
    {
        row_of(self.columns, n)
    }

    // The column of line n.
    pub fn column_of(self, n: usize) -> ColumnIndex
        ensures { result.0 ≡ n % self.columns }
    {
        column_of(self.columns, n)
    }
}

// The row of line n: only here and in `column_of` does a line's number become a row's or a column's. Both take a number, and stand beside
// the methods of `Sides`, since docs/CHANGES.md names them.
pub fn row_of(columns: usize, n: usize) -> RowIndex
    requires { 0 < columns }
    ensures { result.0 ≡ n / columns }
{
    RowIndex(n / columns)
}

// The column of line n.
pub fn column_of(columns: usize, n: usize) -> ColumnIndex
    requires { 0 < columns }
    ensures { result.0 ≡ n % columns }
{
    ColumnIndex(n % columns)
}

// Line n of a buffer.
pub fn line_at(buffer: &[u8], n: usize) -> [u8; 70]
    requires { suc n * 70 ≤ length buffer.now }
    ensures { result ≡ bytes_at buffer.now n }
{
    let at = n * 70;
    // A part whose length is known is copied without a loop.
    place::load(&buffer[at..at + 70])
}

// Line n of a buffer, written.
pub fn put_line(buffer: &mut [u8], n: usize, line: [u8; 70])
    requires { suc n * 70 ≤ length buffer.old }
    ensures { buffer.new ≡ put_bytes buffer.old n line }
{
    let at = n * 70;
    buffer[at..at + 70].copy_from_slice(&line);
}

// Line n of a buffer, whose sums are known, as it reads alone, written as line m of another: its mark, which stays a byte, as C reads marks.
pub fn read_into(
    table: &LineTable,
    sums: u32,
    found: &[u8],
    n: usize,
    out: &mut [u8],
    m: usize,
) -> u8
    requires inside { (suc n * 70 ≤ length found.now) × (suc m * 70 ≤ length out.old) }
    requires summed { sums ≡ both_sums (places (bytes_at found.now n)) }
    ensures { (out.new ≡ put_line out.old m (alone_at found.now n).line)
        × (result ≡ (alone_at found.now n).mark) }
{
    let line = line_at(found, n);
    if reading::is_untouched(line, sums) {
        put_line(out, m, line);
        return 0;
    }
    let read = reading::read_summed(table, line, sums);
    let corrected = read.line;
    put_line(out, m, corrected);
    read.mark
}
