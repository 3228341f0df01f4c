// The report that `storecheck` prints, as bytes in a lent buffer.
// The buffer and the place to write at go apart: of a struct that held them each function would promise that it holds the same buffer still.
ghost use Rattle.std.specs.Prelude.{◌≡◌, ◌+◌, ◌≤◌, length};
ghost use Rattle.storefile.specs.Bytes.{Put};
ghost use Rattle.rectangle.specs.Answers.{answer_of};
ghost use Rattle.report.specs.Given.{size_of};
ghost use Rattle.report.specs.Report.{spaced, line, store_line, count_lines, lines_above, write_report};

use itoa::Buffer;
use rectangle::answers::Refusal;
use results::answers;
use results::marks::Counts;
use storefile::bytes;

// What a check of a store answers, its rows and columns, the counts of its marks, and the passes, in numbers: `report` and
// `numbers` promise something of any answer, as the definitions do. What a check gives is `check::Found`.
#[derive(Clone, Copy)]
pub struct Checked {
    pub answer: u32,
    pub rows: usize,
    pub columns: usize,
    pub counts: Counts,
    pub passes: usize,
}

// A space and a number in decimal, at most 21 bytes. Not by `write!`, which doesn't promise that it writes what there is room for.
fn put_spaced(out: &mut [u8], at: usize, n: usize) -> usize
    requires { at + 21 ≤ length out.old }
    ensures written { Put out.old at (spaced n) out.new result }
    ensures short { result ≤ at + 21 }
{
    let first = bytes::put_bytes(out, at, b" ");
    let mut digits = Buffer::new();
    bytes::put_bytes(out, first, digits.format(n).as_bytes())
}

// A line of the report.
fn put_line(out: &mut [u8], at: usize, word: &[u8], n: usize) -> usize
    requires { at + length word.now + 22 ≤ length out.old }
    ensures written { Put out.old at (line word.now n) out.new result }
    ensures short { result ≤ at + length word.now + 22 }
{
    let number = bytes::put_bytes(out, at, word);
    let end = put_spaced(out, number, n);
    bytes::put_bytes(out, end, b"\n")
}

// The first line, put from the buffer's start on.
fn put_store(out: &mut [u8], rows: usize, columns: usize) -> usize
    requires { 48 ≤ length out.old }
    ensures written { Put out.old 0 (store_line rows columns) out.new result }
    ensures short { result ≤ 48 }
{
    let first = bytes::put_bytes(out, 0, b"store");
    let second = put_spaced(out, first, rows);
    let end = put_spaced(out, second, columns);
    bytes::put_bytes(out, end, b"\n")
}

// The five lines that count marks.
fn put_counts(out: &mut [u8], at: usize, counts: Counts) -> usize
    requires { at + 138 ≤ length out.old }
    ensures written { Put out.old at (count_lines counts) out.new result }
    ensures short { result ≤ at + 138 }
{
    let alone = put_line(out, at, b"clean", counts.clean as usize);
    let trial = put_line(out, alone, b"alone", counts.alone as usize);
    let rebuilt = put_line(out, trial, b"trial", counts.trial as usize);
    let faulty = put_line(out, rebuilt, b"rebuilt", counts.rebuilt as usize);
    put_line(out, faulty, b"faulty", counts.faulty as usize)
}

// The lines above the last, put from the buffer's start on.
fn put_above(out: &mut [u8], c: Checked) -> usize
    requires { 214 ≤ length out.old }
    ensures written { Put out.old 0 (lines_above c) out.new result }
    ensures short { result ≤ 214 }
{
    let counted = put_store(out, c.rows, c.columns);
    let passes = put_counts(out, counted, c.counts);
    put_line(out, passes, b"passes", c.passes)
}

// The report, put from the buffer's start on, and its length: where nothing is handed over (any answer but 0, 11 and 12) only its last line.
pub fn report(c: Checked, out: &mut [u8]) -> Result<usize, Refusal>
    ensures { record { answer = answer_of result; size = size_of result; out = out.new } ≡ write_report c out.old }
{
    if out.len() != 256 {
        return Err(Refusal::Room);
    }
    let Some(_) = answers::hands_over(c.answer) else {
        return Ok(put_line(out, 0, b"answer", c.answer as usize));
    };
    let last = put_above(out, c);
    Ok(put_line(out, last, b"answer", c.answer as usize))
}
