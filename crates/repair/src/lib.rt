// Repair of a rectangle: document 01's steps on lent buffers. Document 01, "Repair".
#![tactic(auto)]

mod passes;

ghost use Rattle.std.specs.Prelude.{◌≡◌, [], ◌++◌, ℕ, ◌*◌, ◌≤◌, IfOk, length, replicate};
ghost use Rattle.gf2.specs.Word.{Word};
ghost use Rattle.scheme.specs.Visit.{State};
ghost use Rattle.scheme.specs.Repair.{answer};
ghost use Rattle.rectangle.specs.Refusals.{repair_refusal};
ghost use Rattle.rectangle.specs.Store.{line_layer};
ghost use Rattle.rectangle.specs.Repair.{StoreRepaired, repaired_by, handed_over, repair_store};
ghost use Rattle.rectangle.specs.Answers.{answer_of, outcome_number};
ghost use Rattle.groups.specs.Lent.{Rectangular, Tracked};
ghost use Rattle.repair.specs.Answer.{repair_answer, repair_passes};
ghost use Rattle.repair.specs.Lent.{all_groups, Finished};

use line_table::LineTable;
use rectangle::answers::{Outcome, Refusal};
use rectangle::lines::{ColumnIndex, RowIndex};
use rectangle::sizes::Sides;
use rectangle::store::Store;

// With what repair hands a store over, and its passes.
#[derive(Clone, Copy)]
pub struct Repaired {
    pub outcome: Outcome,
    pub passes: usize,
}

// The first refusal that fits, if any. Public for a read of one line, which asks the same of its buffers. Sizes and buffers come one by one
// here and in `repair`, as C hands them over. The four that are written stay apart below too: of a struct of four `&mut` each contract
// would also have to say that every field is still the caller's buffer.
#[tactic(auto, unfolding(rectangle::specs::Refusals::repair_refusal, rectangle::specs::Refusals::holds, rectangle::specs::Refusals::tables_fit, linecode::specs::Places::line_bytes))]
pub fn check<'a>(
    rows: usize,
    columns: usize,
    lines: &'a [u8],
    row_table: &'a [u8],
    column_table: &'a [u8],
    out: &[u8],
    marks: &[u8],
    row_out: &[u8],
    column_out: &[u8],
) -> Result<Store<'a>, Refusal>
    ensures answer { answer_of result
        ≡ repair_refusal rows columns lines.now row_table.now column_table.now
        out.now marks.now row_out.now column_out.now }
    ensures given { IfOk result (λ store. (store.sides.rows ≡ rows) × (store.sides.columns ≡ columns)
        × (store.lines.now ≡ lines.now) × (store.row_table.now ≡ row_table.now)
        × (store.column_table.now ≡ column_table.now)) }
{
    let store = Store::new(rows, columns, lines, row_table, column_table)?;
    if row_out.len() != rows * 70 || column_out.len() != columns * 70 {
        return Err(Refusal::Tables);
    }
    if out.len() != rows * columns * 70 || marks.len() != rows * columns {
        return Err(Refusal::Room);
    }
    Ok(store)
}

// The outcome after the last pass: whether faulty lines are left, or else some usable group's difference is not 0.
fn outcome_after(
    sides: Sides,
    row_lacks: &[u8],
    column_lacks: &[u8],
    faulty: &[u16],
    parity_marks: &[u8],
) -> Outcome
    requires { (length row_lacks.now ≡ sides.rows * 70) × (length column_lacks.now ≡ sides.columns * 70)
        × (length faulty.now ≡ 1024) × (length parity_marks.now ≡ 1024) }
    ensures { (parity : ℕ → Word) (s : State) → length s ≡ sides.rows * sides.columns
        → Tracked sides.rows sides.columns parity (row_lacks.now ++ column_lacks.now) faulty.now s
        → outcome_number result ≡ answer (all_groups sides.rows sides.columns parity_marks.now parity) s }
{
    if groups::count_faulty(sides, faulty) != 0 {
        return Outcome::Left;
    }
    if !groups::all_agree(sides, row_lacks, column_lacks, parity_marks) {
        return Outcome::Differs;
    }
    Outcome::Done
}

// The steps, from differences that are the parity lines as read, or zeros where these are faulty: the first reading, the passes, the
// answer.
fn steps(
    table: &LineTable,
    found: &[u8],
    out: &mut [u8],
    marks: &mut [u8],
    row_lacks: &mut [u8],
    column_lacks: &mut [u8],
    parity_marks: &[u8],
    sides: Sides,
) -> Repaired
    requires room { Rectangular sides.rows sides.columns out.old marks.old × (length found.now ≡ sides.rows * sides.columns * 70)
        × (length row_lacks.old ≡ sides.rows * 70) × (length column_lacks.old ≡ sides.columns * 70)
        × (length parity_marks.now ≡ 1024) }
    requires some { (parity : (ℕ → Word))
        × Tracked sides.rows sides.columns parity (row_lacks.old ++ column_lacks.old) (replicate 1024 0) [] }
    ensures { (parity : ℕ → Word)
        → Tracked sides.rows sides.columns parity (row_lacks.old ++ column_lacks.old) (replicate 1024 0) []
        → Finished sides.rows sides.columns parity_marks.now parity found.now out.new marks.new
        (row_lacks.new ++ column_lacks.new) (outcome_number result.outcome) result.passes }
{
    let mut faulty = [0u16; 1024];
    first_reading::read_all(
        table,
        found,
        out,
        marks,
        row_lacks,
        column_lacks,
        &mut faulty,
        sides,
    );
    let passes = passes::run_passes(
        table,
        out,
        marks,
        row_lacks,
        column_lacks,
        &mut faulty,
        parity_marks,
        sides,
    );
    let outcome = outcome_after(sides, row_lacks, column_lacks, &faulty, parity_marks);
    Repaired { outcome, passes }
}

// Repair of what is not refused: the parity lines are read, the steps made, and both tables handed over. Public for a read of one line,
// which has made the tests itself.
pub fn repair_fitting(
    store: Store,
    out: &mut [u8],
    marks: &mut [u8],
    row_out: &mut [u8],
    column_out: &mut [u8],
) -> Repaired
    requires { repair_refusal store.sides.rows store.sides.columns store.lines.now store.row_table.now store.column_table.now
        out.old marks.old row_out.old column_out.old ≡ 0 }
    ensures { ◌≡◌ {A = StoreRepaired}
        (record {
          answer = outcome_number result.outcome;
          passes = result.passes;
          lines = out.new;
          marks = marks.new;
          row_table = row_out.new;
          column_table = column_out.new;
        })
        (handed_over line_layer store.entry.sides.rows store.entry.sides.columns store.entry.row_table.now store.entry.column_table.now
        (repaired_by line_layer store.entry.sides.rows store.entry.sides.columns store.entry.lines.now store.entry.row_table.now store.entry.column_table.now)) }
{
    let Sides { rows, columns } = store.sides;
    let table = line_table::lent();
    let mut parity_marks = [0u8; 1024];
    parity::read::<RowIndex>(
        &table,
        rows,
        columns,
        store.row_table,
        row_out,
        &mut parity_marks,
    );
    parity::read::<ColumnIndex>(
        &table,
        rows,
        columns,
        store.column_table,
        column_out,
        &mut parity_marks,
    );
    let repaired = steps(
        &table,
        store.lines,
        out,
        marks,
        row_out,
        column_out,
        &parity_marks,
        store.sides,
    );
    let whole = repaired.outcome != Outcome::Left;
    parity::hand_over::<RowIndex>(
        &table,
        rows,
        columns,
        store.row_table,
        row_out,
        &parity_marks,
        whole,
    );
    parity::hand_over::<ColumnIndex>(
        &table,
        rows,
        columns,
        store.column_table,
        column_out,
        &parity_marks,
        whole,
    );
    repaired
}

// Repair: lines and tables are read; the line buffer `out`, the mark buffer and both tables are written. While it runs, the tables written
// hold the differences of their groups.
pub fn repair(
    rows: usize,
    columns: usize,
    lines: &[u8],
    row_table: &[u8],
    column_table: &[u8],
    out: &mut [u8],
    marks: &mut [u8],
    row_out: &mut [u8],
    column_out: &mut [u8],
) -> Result<Repaired, Refusal>
    ensures { ◌≡◌ {A = StoreRepaired}
        (record {
          answer = repair_answer result;
          passes = repair_passes result;
          lines = out.new;
          marks = marks.new;
          row_table = row_out.new;
          column_table = column_out.new;
        })
        (repair_store rows columns lines.now row_table.now column_table.now
        out.old marks.old row_out.old column_out.old) }
{
    let store = check(
        rows,
        columns,
        lines,
        row_table,
        column_table,
        out,
        marks,
        row_out,
        column_out,
    )?;
    Ok(repair_fitting(store, out, marks, row_out, column_out))
}
