// Opening a file of any bytes and any length, and a part of it.
ghost use Rattle.std.specs.Prelude.{◌≡◌, ◌≢◌, ◌+◌, ◌≤◌, length, IfOk, MatchResult};
ghost use Rattle.rectangle.specs.Answers.{number_of};
ghost use Rattle.storefile.specs.Bytes.{number_at};
ghost use Rattle.storefile.specs.Given.{opened_as, Told};
ghost use Rattle.storefile.specs.Header.{bytes_in};
ghost use Rattle.storefile.specs.Opening.{entries_fit, contents_fit, open_refusal, opened, bytes_needed};

use crate::header::Part;
use crate::{bytes, header};
use rectangle::answers::Refusal;
use rectangle::sizes::Sides;

// The part that an entry of the contents table tells, which starts at a place.
fn part_in(file: &[u8], at: usize) -> Part
    requires { at + 8 ≤ length file.now }
    ensures { (result.offset ≡ number_at file.now at 4) × (result.size ≡ number_at file.now (at + 4) 4) }
{
    Part {
        offset: bytes::four_bytes(file, at) as usize,
        size: bytes::four_bytes(file, at + 4) as usize,
    }
}

// Whether the contents table is the one that rows and columns require.
#[tactic(auto, unfolding(crate::specs::Opening::entries_fit, crate::specs::Opening::entry_is))]
fn entries_fit(file: &[u8], sides: Sides) -> bool
    requires { 28 ≤ length file.now }
    ensures { result ≡ entries_fit file.now sides.rows sides.columns }
{
    part_in(file, 4) == header::lines_part(sides.rows, sides.columns)
        && part_in(file, 12) == header::row_table_part(sides.rows, sides.columns)
        && part_in(file, 20) == header::column_table_part(sides.rows, sides.columns)
}

// Whether the contents table and the file's length are those that rows and columns require.
#[tactic(auto, unfolding(crate::specs::Opening::contents_fit))]
fn contents_fit(file: &[u8], sides: Sides) -> bool
    requires { 28 ≤ length file.now }
    ensures { result ≡ contents_fit file.now sides.rows sides.columns }
{
    entries_fit(file, sides) && file.len() == header::file_length(sides)
}

// Rows and columns as the header tells them, where they are at most a limit.
#[tactic(auto, using(crate::proofs::Openings::short_told))]
fn sides_told(limit: usize, file: &[u8]) -> Result<Sides, Refusal>
    ensures { MatchResult result
        (λ sides. Told limit file.now sides.rows sides.columns)
        (λ refusal. (number_of refusal ≡ open_refusal limit file.now) × (number_of refusal ≢ 4)) }
{
    if file.len() < 28 {
        return Err(Refusal::Short);
    }
    let rows = bytes::two_bytes(file, 0) as usize;
    let columns = bytes::two_bytes(file, 2) as usize;
    let sides = Sides::new(rows, columns)?;
    if limit < rows.max(columns) {
        return Err(Refusal::Limit);
    }
    Ok(sides)
}

// A file opened, its rows and columns at most a limit.
pub fn open_within(limit: usize, file: &[u8]) -> Result<Sides, Refusal>
    ensures opens { opened_as result ≡ opened limit file.now }
    ensures within { IfOk result (λ sides. (sides.rows ≤ limit) × (sides.columns ≤ limit)) }
{
    let sides = sides_told(limit, file)?;
    if !contents_fit(file, sides) {
        return Err(Refusal::Contents);
    }
    Ok(sides)
}

// A file opened.
pub fn open(file: &[u8]) -> Result<Sides, Refusal>
    ensures { opened_as result ≡ opened 512 file.now }
{
    open_within(512, file)
}

// How many bytes a reader needs that has the first 28: no more of a file that these refuse, and otherwise one more than the length
// required, to see that nothing follows.
pub fn bytes_needed(limit: usize, start: &[u8]) -> usize
    ensures { result ≡ bytes_needed limit start.now }
{
    match sides_told(limit, start) {
        Ok(sides) if entries_fit(start, sides) && start.len() != header::file_length(sides) => {
            header::file_length(sides) + 1
        }
        _ => 28,
    }
}

// A part of a file as far as the file reaches.
pub fn part_of(file: &[u8], p: Part) -> &[u8]
    ensures { result.now ≡ bytes_in file.now p }
{
    let rest = &file[p.offset.min(file.len())..];
    &rest[..p.size.min(rest.len())]
}
