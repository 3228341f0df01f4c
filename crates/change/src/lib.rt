// Changing one line together with its two parity lines. Document 01, "The rectangle". It reads three lines and
// writes one, so it goes by the tables that are compiled in; `tables` and `repair`, which read every line, lend a table.
#![tactic(auto)]

ghost use Rattle.std.specs.Prelude.{◌≡◌, ℕ, suc, ◌*◌, ◌/◌, ◌%◌, ◌≤◌, length, IfOk};
ghost use Rattle.linecode.specs.Places.{line_of};
ghost use Rattle.rectangle.specs.Answers.{answer_of, index_with};
ghost use Rattle.rectangle.specs.Store.{alone_at, row_group, column_group};
ghost use Rattle.rectangle.specs.Refusals.{parity_correct, parity_refusal, change_refusal, number_with};
ghost use Rattle.rectangle.specs.Change.{LineChanged, change_line};

use linecode::place;
use rectangle::answers::Refusal;
use rectangle::lines::{
    ColumnIndex, RowIndex, add_to_column, add_to_row, column_parity, line_at, put_line, row_parity,
};
use rectangle::sizes;
use rectangle::sizes::Sides;
use single::alone;

// Whether a row's parity line is a correct line, then a column's, spare bits apart: in a rectangle of any sides.
#[tactic(auto, unfolding(rectangle::specs::Refusals::number_with))]
fn check_parity(
    row_table: &[u8],
    row: RowIndex,
    column_table: &[u8],
    column: ColumnIndex,
) -> Result<(), Refusal>
    requires { (suc row.0 * 70 ≤ length row_table.now) × (suc column.0 * 70 ≤ length column_table.now) }
    ensures answer { (rows columns : ℕ) → answer_of result
        ≡ parity_refusal (parity_correct (row_group columns row_table.now row.0))
        (parity_correct (column_group rows columns column_table.now column.0)) 0 }
    ensures number { index_with result ≡ number_with (answer_of result) row.0 column.0 }
{
    let of_row = row_parity(row_table, row);
    let of_column = column_parity(column_table, column);
    if !alone::is_correct(of_row) {
        return Err(Refusal::RowParity(row));
    }
    if !alone::is_correct(of_column) {
        return Err(Refusal::ColumnParity(column));
    }
    Ok(())
}

// The rectangle's sides, and line n as it reads alone; or the first refusal that fits: only the line's own two parity lines are tested for
// 13 and 14, and the line alone for 10. Sizes and buffers come one by one here and below, as C hands them over and definitions take them.
#[tactic(auto, unfolding(rectangle::specs::Refusals::number_with))]
fn line_to_change(
    rows: usize,
    columns: usize,
    lines: &[u8],
    row_table: &[u8],
    column_table: &[u8],
    n: usize,
    payload: &[u8],
) -> Result<(Sides, [u8; 70]), Refusal>
    ensures answer { answer_of result
        ≡ change_refusal rows columns lines.now row_table.now column_table.now n payload.now }
    ensures number { index_with result ≡ number_with (answer_of result) (n / columns) (n % columns) }
    ensures sides { IfOk result (λ found. (found.0.rows ≡ rows) × (found.0.columns ≡ columns)) }
    ensures line { IfOk result (λ found. found.1 ≡ line_of (alone_at lines.now n).line) }
{
    let sides = sizes::check(
        rows,
        columns,
        lines.len(),
        row_table.len(),
        column_table.len(),
    )?;
    if payload.len() != 64 {
        return Err(Refusal::Room);
    }
    if sides.lines() <= n {
        return Err(Refusal::Number);
    }
    let row = sides.row_of(n);
    let column = sides.column_of(n);
    check_parity(row_table, row, column_table, column)?;
    let read = alone::read_line(line_at(lines, n));
    if read.mark == 4 {
        return Err(Refusal::Faulty);
    }
    let line = read.line;
    Ok((sides, line))
}

// Line n written anew from 64 data bytes, or the first refusal that fits, which writes nothing.
pub fn change_line(
    rows: usize,
    columns: usize,
    lines: &mut [u8],
    row_table: &mut [u8],
    column_table: &mut [u8],
    n: usize,
    payload: &[u8],
) -> Result<(), Refusal>
    ensures { ◌≡◌ {A = LineChanged}
        (record {
          answer = answer_of result;
          number = index_with result;
          lines = lines.new;
          row_table = row_table.new;
          column_table = column_table.new;
        })
        (change_line rows columns lines.old row_table.old column_table.old n
        payload.now) }
{
    let (sides, old) = line_to_change(rows, columns, lines, row_table, column_table, n, payload)?;
    let new = alone::rewrite(place::load(payload));
    let both = place::xor_lines(old, new);
    put_line(lines, n, new);
    add_to_row(row_table, sides.row_of(n), both);
    add_to_column(column_table, sides.column_of(n), both);
    Ok(())
}
