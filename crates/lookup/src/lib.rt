// One line wanted during the show (request Q-4): it is read alone, then by its row's visit, and only if both fail by the whole repair.
// Definition and promises are in `local_decoding`. Sizes and buffers come one by one, as C hands them over. Those that are
// written stay apart below too: of a struct of `&mut` each contract would also have to say that every field is still the caller's buffer.
#![tactic(auto)]

ghost use Rattle.std.specs.Prelude.{◌≡◌, cond, ◌*◌, ◌/◌, ◌<◌, IfOk, eqb};
ghost use Rattle.scheme.specs.Visit.{cell_at};
ghost use Rattle.rectangle.specs.Store.{in_bytes};
ghost use Rattle.rectangle.specs.Answers.{answer_of, outcome_number};
ghost use Rattle.rectangle.specs.Refusals.{repair_refusal};
ghost use Rattle.rectangle.specs.Repair.{repaired};
ghost use Rattle.local_decoding.specs.Lookup.{after_row, last_step, one_refusal, OneRead, read_one};
ghost use Rattle.lookup.specs.Answer.{step_number, one_answer, one_step, one_mark};
ghost use Rattle.lookup.specs.Lent.{Readable, ReadAlone, Wanted};

use groups::Span;
use groups::tracked::Which;
use linecode::alone::Reading;
use rectangle::answers::{Outcome, Refusal};
use rectangle::lines;
use rectangle::store::Store;
use single::alone;

// The last step taken for a line: it is read alone, its row is visited, or the whole store is repaired.
#[derive(Clone, Copy, PartialEq, Eq)]
pub enum Step {
    Alone,
    Row,
    Repair,
}

impl From<Step> for u32 {
    ghost from_gives = { λ step n. n ≡ step_number step };

    fn from(step: Step) -> u32 {
        match step {
            Step::Alone => 1,
            Step::Row => 2,
            Step::Repair => 3,
        }
    }
}

// The last step of a read of one line, and the line's mark, the byte that C reads.
#[derive(Clone, Copy, PartialEq, Eq)]
pub struct One {
    pub step: Step,
    pub mark: u8,
}

impl One {
    // Whether the line stays faulty, whatever the whole repair leaves elsewhere.
    pub fn outcome(self) -> Outcome
        ensures { outcome_number result ≡ cond (eqb self.mark 4) 11 0 }
    {
        if self.mark == 4 {
            Outcome::Left
        } else {
            Outcome::Done
        }
    }
}

// A line with its mark, and the last step taken for it.
#[derive(Drop)]
struct Found {
    step: Step,
    read: Reading,
}

// A group's lines are read alone, each into its own place of the line and the mark buffer.
fn read_group(lines: &[u8], out: &mut [u8], marks: &mut [u8], span: Span)
    requires { Readable lines.now out.old marks.old span.first span.step span.count }
    ensures { ReadAlone lines.now span.first span.step span.count out.new marks.new }
{
    for i in 0..span.count {
        let n = span.line(i);
        let read = alone::read_line(lines::line_at(lines, n));
        let line = read.line;
        lines::put_line(out, n, line);
        marks[n] = read.mark;
    }
}

// Line n as its row's visit leaves it. No line of another row is looked at; an unusable row's visit does nothing.
fn by_row(store: Store, n: usize, out: &mut [u8], marks: &mut [u8]) -> Reading
    requires { Wanted store.sides.rows store.sides.columns store.lines.now store.row_table.now out.old marks.old n }
    ensures { result
        ≡ in_bytes (cell_at (after_row store.entry.sides.rows store.entry.sides.columns store.entry.lines.now store.entry.row_table.now (n / store.entry.sides.columns)) n) }
{
    let row = store.sides.row_of(n);
    let span = groups::choose(store.sides, Which::Row(row)).span;
    read_group(store.lines, out, marks, span);
    let parity = alone::read_line(lines::row_parity(store.row_table, row));
    if parity.mark != 4 {
        let used = parity.line;
        visiting::visit_group(out, marks, used, span);
    }
    Reading {
        line: lines::line_at(out, n),
        mark: marks[n],
    }
}

// Line n as the whole repair leaves it.
fn by_repair(
    store: Store,
    n: usize,
    out: &mut [u8],
    marks: &mut [u8],
    row_out: &mut [u8],
    column_out: &mut [u8],
) -> Reading
    requires fits { repair_refusal store.sides.rows store.sides.columns store.lines.now store.row_table.now store.column_table.now
        out.old marks.old row_out.old column_out.old ≡ 0 }
    requires inside { n < store.sides.rows * store.sides.columns }
    ensures { result
        ≡ in_bytes (cell_at (repaired store.entry.sides.rows store.entry.sides.columns store.entry.lines.now store.entry.row_table.now
        store.entry.column_table.now).cells n) }
{
    repair::repair_fitting(store, out, marks, row_out, column_out);
    Reading {
        line: lines::line_at(out, n),
        mark: marks[n],
    }
}

// Line n as the whole repair leaves it, by as few steps as it takes.
fn find(
    store: Store,
    n: usize,
    out: &mut [u8],
    marks: &mut [u8],
    row_out: &mut [u8],
    column_out: &mut [u8],
) -> Found
    requires fits { repair_refusal store.sides.rows store.sides.columns store.lines.now store.row_table.now store.column_table.now
        out.old marks.old row_out.old column_out.old ≡ 0 }
    requires inside { n < store.sides.rows * store.sides.columns }
    ensures { (step_number result.step ≡ last_step store.entry.sides.rows store.entry.sides.columns store.entry.lines.now store.entry.row_table.now n)
        × (result.read
        ≡ in_bytes (cell_at (repaired store.entry.sides.rows store.entry.sides.columns store.entry.lines.now store.entry.row_table.now
        store.entry.column_table.now).cells n)) }
{
    let alone = alone::read_line(lines::line_at(store.lines, n));
    if alone.mark != 4 {
        return Found {
            step: Step::Alone,
            read: alone,
        };
    }
    let visited = by_row(store, n, out, marks);
    if visited.mark != 4 {
        return Found {
            step: Step::Row,
            read: visited,
        };
    }
    let read = by_repair(store, n, out, marks, row_out, column_out);
    Found {
        step: Step::Repair,
        read,
    }
}

// The first refusal that fits, if any.
#[tactic(auto, unfolding(local_decoding::specs::Lookup::one_refusal, linecode::specs::Places::line_bytes))]
fn check<'a>(
    rows: usize,
    columns: usize,
    lines: &'a [u8],
    row_table: &'a [u8],
    column_table: &'a [u8],
    n: usize,
    out: &[u8],
    marks: &[u8],
    row_out: &[u8],
    column_out: &[u8],
    line: &[u8],
) -> Result<Store<'a>, Refusal>
    ensures answer { answer_of result
        ≡ one_refusal rows columns lines.now row_table.now column_table.now n
        (record {
          lines = out.now;
          marks = marks.now;
          row_table = row_out.now;
          column_table = column_out.now;
        })
        line.now }
    ensures given { IfOk result (λ store. (store.sides.rows ≡ rows) × (store.sides.columns ≡ columns)
        × (store.lines.now ≡ lines.now) × (store.row_table.now ≡ row_table.now)
        × (store.column_table.now ≡ column_table.now)) }
{
    let store = repair::check(
        rows,
        columns,
        lines,
        row_table,
        column_table,
        out,
        marks,
        row_out,
        column_out,
    )?;
    if line.len() != 70 {
        return Err(Refusal::Room);
    }
    if store.sides.lines() <= n {
        return Err(Refusal::Number);
    }
    Ok(store)
}

// A read of line n that is not refused: the work buffers are cleared when the line is found, whatever steps it took.
fn read_fitting(
    store: Store,
    n: usize,
    out: &mut [u8],
    marks: &mut [u8],
    row_out: &mut [u8],
    column_out: &mut [u8],
    line: &mut [u8],
) -> One
    requires { one_refusal store.sides.rows store.sides.columns store.lines.now store.row_table.now store.column_table.now n
        (record { lines = out.old; marks = marks.old; row_table = row_out.old; column_table = column_out.old })
        line.old ≡ 0 }
    ensures { ◌≡◌ {A = OneRead}
        (record {
          answer = cond (eqb result.mark 4) 11 0;
          step = step_number result.step;
          mark = result.mark;
          line = line.new;
          work = record {
            lines = out.new;
            marks = marks.new;
            row_table = row_out.new;
            column_table = column_out.new;
          };
        })
        (read_one store.entry.sides.rows store.entry.sides.columns store.entry.lines.now store.entry.row_table.now store.entry.column_table.now n
        (record {
          lines = out.old;
          marks = marks.old;
          row_table = row_out.old;
          column_table = column_out.old;
        })
        line.old) }
{
    let found = find(store, n, out, marks, row_out, column_out);
    out.fill(0);
    marks.fill(0);
    row_out.fill(0);
    column_out.fill(0);
    lines::put_line(line, 0, found.read.line);
    One {
        step: found.step,
        mark: found.read.mark,
    }
}

// A read of line n: lines and tables are read, `line` is written, and the four work buffers, which have the lengths that repair's have, are
// left all zero.
pub fn read_one(
    rows: usize,
    columns: usize,
    lines: &[u8],
    row_table: &[u8],
    column_table: &[u8],
    n: usize,
    out: &mut [u8],
    marks: &mut [u8],
    row_out: &mut [u8],
    column_out: &mut [u8],
    line: &mut [u8],
) -> Result<One, Refusal>
    ensures { ◌≡◌ {A = OneRead}
        (record {
          answer = one_answer result;
          step = one_step result;
          mark = one_mark result;
          line = line.new;
          work = record {
            lines = out.new;
            marks = marks.new;
            row_table = row_out.new;
            column_table = column_out.new;
          };
        })
        (read_one rows columns lines.now row_table.now column_table.now n
        (record {
          lines = out.old;
          marks = marks.old;
          row_table = row_out.old;
          column_table = column_out.old;
        })
        line.old) }
{
    let store = check(
        rows,
        columns,
        lines,
        row_table,
        column_table,
        n,
        out,
        marks,
        row_out,
        column_out,
        line,
    )?;
    Ok(read_fitting(store, n, out, marks, row_out, column_out, line))
}
