// The header of a store file: rows, columns, and where the bodies stand. The parts are public for the crate's other modules and the crate
// `report`; the entry point is `write_header`.
#![tactic(auto, using(crate::proofs::Small::few_lines), unfolding(crate::specs::Header::lines_part, crate::specs::Header::row_table_part, crate::specs::Header::column_table_part, crate::specs::Header::file_length, crate::specs::Header::header_bytes, linecode::specs::Places::line_bytes))]

ghost use Rattle.std.specs.Prelude.{◌≡◌, ◌+◌, ◌^◌, ◌<◌, ◌≤◌, length};
ghost use Rattle.rectangle.specs.Answers.{answer_of};
ghost use Rattle.storefile.specs.Bytes.{placed};
ghost use Rattle.storefile.specs.Header.{end, lines_part, row_table_part, column_table_part, file_length, entry, header, write_header};

use crate::bytes;
use rectangle::answers::Refusal;
use rectangle::sizes::Sides;

// A part of a file: its offset from the file's start and its length.
#[derive(Clone, Copy, PartialEq, Eq)]
pub struct Part {
    pub offset: usize,
    pub size: usize,
}

impl Part {
    // The place after it.
    pub fn end(self) -> usize
        requires { end self < 2 ^ 64 }
        ensures { result ≡ end self }
    {
        self.offset + self.size
    }
}

// Where the lines stand. Of the three parts also for sides that no rectangle has, as those are that come with a refusal: so no `Sides`.
pub fn lines_part(rows: usize, columns: usize) -> Part
    requires { (rows ≤ 512) × (columns ≤ 512) }
    ensures { result ≡ lines_part rows columns }
{
    Part {
        offset: 28,
        size: rows * columns * 70,
    }
}

// Where the row table stands.
pub fn row_table_part(rows: usize, columns: usize) -> Part
    requires { (rows ≤ 512) × (columns ≤ 512) }
    ensures { result ≡ row_table_part rows columns }
{
    Part {
        offset: lines_part(rows, columns).end(),
        size: rows * 70,
    }
}

// Where the column table stands.
pub fn column_table_part(rows: usize, columns: usize) -> Part
    requires { (rows ≤ 512) × (columns ≤ 512) }
    ensures { result ≡ column_table_part rows columns }
{
    Part {
        offset: row_table_part(rows, columns).end(),
        size: columns * 70,
    }
}

// How long the file is.
pub fn file_length(sides: Sides) -> usize
    ensures { result ≡ file_length sides.rows sides.columns }
{
    column_table_part(sides.rows, sides.columns).end()
}

// An entry of the contents table, put from a place on.
fn put_entry(out: &mut [u8], at: usize, p: Part)
    requires { at + 8 ≤ length out.old }
    ensures { out.new ≡ placed out.old at (entry p) }
{
    bytes::put_number::<4>(out, at, p.offset);
    bytes::put_number::<4>(out, at + 4, p.size);
}

// The header that rows and columns require, put from the buffer's start on.
fn put_header(out: &mut [u8], sides: Sides)
    requires { 28 ≤ length out.old }
    ensures { out.new ≡ placed out.old 0 (header sides.rows sides.columns) }
{
    bytes::put_number::<2>(out, 0, sides.rows);
    bytes::put_number::<2>(out, 2, sides.columns);
    put_entry(out, 4, lines_part(sides.rows, sides.columns));
    put_entry(out, 12, row_table_part(sides.rows, sides.columns));
    put_entry(out, 20, column_table_part(sides.rows, sides.columns));
}

// A header of given rows and columns, which come one by one, as C hands them over.
pub fn write_header(rows: usize, columns: usize, out: &mut [u8]) -> Result<(), Refusal>
    ensures { record { answer = answer_of result; out = out.new } ≡ write_header rows columns out.old }
{
    let sides = Sides::new(rows, columns)?;
    if out.len() != 28 {
        return Err(Refusal::Room);
    }
    put_header(out, sides);
    Ok(())
}
