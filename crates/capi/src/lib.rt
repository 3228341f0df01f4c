// The C interface: the entry points over slices and numbers, for programs in other languages to link. include/sudoku.h declares them. C takes
// answers, marks, steps and orders as numbers, and each beside its value, so that here, and in what `report` prints, a refusal becomes its
// number; and it takes sizes and buffers one by one.
// In C a slice is a pointer and a length; the mark, the passes, the number, the step and the order are each returned through a pointer, and
// so are the eight numbers of a file's layout and of a check, which a C struct of eight fields holds.
#![tactic(auto)]

ghost use Rattle.std.specs.Prelude.{◌≡◌, length};
ghost use Rattle.rectangle.specs.Answers.{answer_of, outcome_answer};
ghost use Rattle.rectangle.specs.Tables.{TablesMade, make_tables};
ghost use Rattle.rectangle.specs.Change.{LineChanged, change_line};
ghost use Rattle.rectangle.specs.Repair.{StoreRepaired, repair_store};
ghost use Rattle.local_decoding.specs.Lookup.{OneRead, read_one};
ghost use Rattle.forecast.specs.Forecast.{Forecast, forecast};
ghost use Rattle.tour.specs.Share.{order_number};
ghost use Rattle.tour.specs.Numbers.{NumbersAdded, add_numbers, compare_numbers};
ghost use Rattle.storefile.specs.Header.{HeaderWritten, write_header};
ghost use Rattle.storefile.specs.Opening.{bytes_needed};
ghost use Rattle.storefile.specs.Layout.{layout_in};
ghost use Rattle.report.specs.Check.{lent};
ghost use Rattle.report.specs.Numbers.{FileChecked, check_file};
ghost use Rattle.capi.specs.Single.{Written, write_line, Answered, read_line};

use linecode::place;
use rectangle::answers::{Outcome, Refusal};
use report::report::Checked;
use report::{check, numbers as figures};
use single::alone;
use std::cmp::Ordering;
use storefile::{header, layout as places, opening};
use wear::numbers;

// A line put into a buffer of its length. The data and the six bytes after them go apart: a processor waits where a load takes in bytes of
// two stores, and these six were stored by themselves.
fn store(line: [u8; 70], out: &mut [u8])
    requires { length out.old ≡ 70 }
    ensures { out.new ≡ line }
{
    out[..64].copy_from_slice(&line[..64]);
    out[64] = line[64];
    out[65] = line[65];
    out[66] = line[66];
    out[67] = line[67];
    out[68] = line[68];
    out[69] = line[69];
}

// What a call answers: 0, or its refusal's number. No `From` here and below: a `Result`, an order and a number are the library's types.
fn answer<T: Copy>(given: Result<T, Refusal>) -> u32
    ensures { result ≡ answer_of given }
{
    match given {
        Ok(_) => 0,
        Err(refusal) => refusal.into(),
    }
}

// What a repair answers: its outcome's number, or its refusal's.
fn outcome_answer(given: Result<Outcome, Refusal>) -> u32
    ensures { result ≡ outcome_answer given }
{
    match given {
        Ok(outcome) => outcome.into(),
        Err(refusal) => refusal.into(),
    }
}

// An order as C has it.
fn order_number(order: Ordering) -> u32
    ensures { result ≡ order_number order }
{
    match order {
        Ordering::Equal => 0,
        Ordering::Less => 1,
        Ordering::Greater => 2,
    }
}

// A line written from 64 data bytes into `line`.
#[tactic(auto, using(crate::proofs::Single::no_data_refused, crate::proofs::Single::no_room_refused))]
#[unsafe(no_mangle)]
pub extern "C" fn sudoku_write_line(payload: &[u8], line: &mut [u8]) -> u32
    ensures { ◌≡◌ {A = Written}
        (record { answer = result; line = line.new })
        (write_line payload.now line.old) }
{
    if payload.len() != 64 {
        return Refusal::Room.into();
    }
    let room = line.len();
    if room != 70 {
        return Refusal::Room.into();
    }
    let written = alone::rewrite(place::load(payload));
    store(written, line);
    0
}

// A line read alone into `out`, and its mark.
#[unsafe(no_mangle)]
pub extern "C" fn sudoku_read_line(line: &[u8], out: &mut [u8], mark: &mut u8) -> u32
    ensures { ◌≡◌ {A = Answered}
        (record { answer = result; line = out.new; mark = mark.new })
        (read_line line.now out.old) }
{
    *mark = 0;
    if line.len() != 70 {
        return Refusal::Lines.into();
    }
    if out.len() != 70 {
        return Refusal::Room.into();
    }
    let read = alone::read_line(place::load(line));
    let given = read.line;
    store(given, out);
    *mark = read.mark;
    if read.mark == 4 {
        return Refusal::Faulty.into();
    }
    0
}

// Both parity tables made from the lines.
#[unsafe(no_mangle)]
pub extern "C" fn sudoku_make_tables(
    rows: usize,
    columns: usize,
    lines: &[u8],
    row_table: &mut [u8],
    column_table: &mut [u8],
) -> u32
    ensures { ◌≡◌ {A = TablesMade}
        (record { answer = result; row_table = row_table.new; column_table = column_table.new })
        (make_tables rows columns lines.now row_table.old column_table.old) }
{
    answer(tables::make_tables(rows, columns, lines, row_table, column_table))
}

// Line n written anew from 64 data bytes, with its two parity lines, and the number that comes with 13 or 14.
#[unsafe(no_mangle)]
pub extern "C" fn sudoku_change_line(
    rows: usize,
    columns: usize,
    lines: &mut [u8],
    row_table: &mut [u8],
    column_table: &mut [u8],
    n: usize,
    payload: &[u8],
    number: &mut u64,
) -> u32
    ensures { ◌≡◌ {A = LineChanged}
        (record {
          answer = result;
          number = number.new;
          lines = lines.new;
          row_table = row_table.new;
          column_table = column_table.new;
        })
        (change_line rows columns lines.old row_table.old column_table.old n
        payload.now) }
{
    let changed = change::change_line(rows, columns, lines, row_table, column_table, n, payload);
    *number = match changed {
        Err(Refusal::RowParity(row)) => row.0 as u64,
        Err(Refusal::ColumnParity(column)) => column.0 as u64,
        _ => 0,
    };
    answer(changed)
}

// Repair of the lines into `out` and `marks`, of the tables into `row_out` and `column_out`, and its passes.
#[unsafe(no_mangle)]
pub extern "C" fn sudoku_repair(
    rows: usize,
    columns: usize,
    lines: &[u8],
    row_table: &[u8],
    column_table: &[u8],
    out: &mut [u8],
    marks: &mut [u8],
    row_out: &mut [u8],
    column_out: &mut [u8],
    passes: &mut u64,
) -> u32
    ensures { ◌≡◌ {A = StoreRepaired}
        (record {
          answer = result;
          passes = passes.new;
          lines = out.new;
          marks = marks.new;
          row_table = row_out.new;
          column_table = column_out.new;
        })
        (repair_store rows columns lines.now row_table.now column_table.now
        out.old marks.old row_out.old column_out.old) }
{
    let repaired = repair::repair(
        rows,
        columns,
        lines,
        row_table,
        column_table,
        out,
        marks,
        row_out,
        column_out,
    );
    *passes = repaired.map_or(0, |done| done.passes) as u64;
    outcome_answer(repaired.map(|done| done.outcome))
}

// Line n read alone into `line`, then by its row's visit, then by the whole repair, with its mark and the last step taken. The four buffers
// before `line` are room to work in.
#[unsafe(no_mangle)]
pub extern "C" fn sudoku_read_one(
    rows: usize,
    columns: usize,
    lines: &[u8],
    row_table: &[u8],
    column_table: &[u8],
    n: usize,
    out: &mut [u8],
    marks: &mut [u8],
    row_room: &mut [u8],
    column_room: &mut [u8],
    line: &mut [u8],
    mark: &mut u8,
    step: &mut u32,
) -> u32
    ensures { ◌≡◌ {A = OneRead}
        (record {
          answer = result;
          step = step.new;
          mark = mark.new;
          line = line.new;
          work = record {
            lines = out.new;
            marks = marks.new;
            row_table = row_room.new;
            column_table = column_room.new;
          };
        })
        (read_one rows columns lines.now row_table.now column_table.now n
        (record {
          lines = out.old;
          marks = marks.old;
          row_table = row_room.old;
          column_table = column_room.old;
        })
        line.old) }
{
    let one = lookup::read_one(
        rows,
        columns,
        lines,
        row_table,
        column_table,
        n,
        out,
        marks,
        row_room,
        column_room,
        line,
    );
    *mark = one.map_or(0, |read| read.mark);
    *step = one.map_or(0, |read| read.step.into());
    outcome_answer(one.map(|read| read.outcome()))
}

// What rebuilding alone would save, from a byte for each line: the marks, and the passes.
#[unsafe(no_mangle)]
pub extern "C" fn sudoku_forecast(
    rows: usize,
    columns: usize,
    faulty: &[u8],
    marks: &mut [u8],
    passes: &mut u64,
) -> u32
    ensures { ◌≡◌ {A = Forecast}
        (record { answer = result; passes = passes.new; marks = marks.new })
        (forecast rows columns faulty.now marks.old) }
{
    let foreseen = peeling::forecast(rows, columns, faulty, marks);
    *passes = foreseen.unwrap_or(0) as u64;
    answer(foreseen)
}

// A repair result taken into a wear report of ten numbers.
#[unsafe(no_mangle)]
pub extern "C" fn sudoku_wear_add(wear: &mut [u64], marks: &[u8], answer: u32) -> u32
    ensures { ◌≡◌ {A = NumbersAdded}
        (record { answer = result; numbers = wear.new })
        (add_numbers wear.old (record { marks = marks.now; answer = answer })) }
{
    self::answer(numbers::add_numbers(wear, marks, answer))
}

// The shares of rebuilt lines of two wear reports compared, and their order.
#[unsafe(no_mangle)]
pub extern "C" fn sudoku_wear_compare(a: &[u64], b: &[u64], order: &mut u32) -> u32
    ensures { record { answer = result; order = order.new } ≡ compare_numbers a.now b.now }
{
    let compared = numbers::compare_numbers(a, b);
    *order = compared.map_or(0, |order| order_number(order));
    answer(compared)
}

// A store file opened: its rows and columns, and the offset and length of lines, row table and column table.
#[unsafe(no_mangle)]
pub extern "C" fn sudoku_open_file(file: &[u8], layout: &mut [u64; 8]) -> u32
    ensures { record { answer = result; numbers = layout.new } ≡ layout_in file.now }
{
    match places::layout_of(file) {
        Ok(numbers) => {
            *layout = numbers;
            0
        }
        Err(refusal) => {
            *layout = [0; 8];
            refusal.into()
        }
    }
}

// The header of a store file of given rows and columns.
#[unsafe(no_mangle)]
pub extern "C" fn sudoku_write_header(rows: usize, columns: usize, header: &mut [u8]) -> u32
    ensures { ◌≡◌ {A = HeaderWritten}
        (record { answer = result; out = header.new })
        (write_header rows columns header.old) }
{
    answer(header::write_header(rows, columns, header))
}

// How many bytes of a file a reader needs that has its first 28.
#[unsafe(no_mangle)]
pub extern "C" fn sudoku_bytes_needed(start: &[u8]) -> usize
    ensures { result ≡ bytes_needed 512 start.now }
{
    opening::bytes_needed(512, start)
}

// A check of a whole store file: its store repaired into the four buffers, and the report's numbers.
#[unsafe(no_mangle)]
pub extern "C" fn sudoku_check_file(
    file: &[u8],
    out: &mut [u8],
    marks: &mut [u8],
    row_out: &mut [u8],
    column_out: &mut [u8],
    found: &mut [u64; 8],
) -> u32
    ensures { ◌≡◌ {A = FileChecked}
        (record {
          answer = result;
          numbers = found.new;
          buffers = lent out.new marks.new row_out.new column_out.new;
        })
        (check_file file.now
        (lent out.old marks.old row_out.old column_out.old)) }
{
    let checked = Checked::from(check::check(file, out, marks, row_out, column_out));
    *found = figures::numbers(checked);
    checked.answer
}
