// A check of a whole store: opened, repaired into lent buffers, its marks counted.
ghost use Rattle.std.specs.Prelude.{◌≡◌};
ghost use Rattle.rectangle.specs.Repair.{StoreRepaired};
ghost use Rattle.repair.specs.Answer.{repair_answer, repair_passes};
ghost use Rattle.report.specs.Check.{lent, StoreChecked, repair_opened, check_store};
ghost use Rattle.report.specs.Given.{checked_as};

use crate::report::Checked;
use rectangle::answers::{Outcome, Refusal};
use rectangle::sizes::Sides;
use repair::Repaired;
use results::marks;
use results::marks::Counts;
use storefile::{header, opening};

// What a check finds of a store that repair hands over.
#[derive(Clone, Copy)]
pub struct Found {
    pub outcome: Outcome,
    pub sides: Sides,
    pub counts: Counts,
    pub passes: usize,
}

// A refusal: every value but its number is 0.
impl From<Result<Found, Refusal>> for Checked {
    ghost from_gives = { λ found checked. checked ≡ checked_as found };

    #[tactic(auto, unfolding(crate::specs::Check::refused_with, results::specs::Marks::no_counts))]
    fn from(found: Result<Found, Refusal>) -> Checked {
        match found {
            Ok(found) => Checked {
                answer: found.outcome.into(),
                rows: found.sides.rows,
                columns: found.sides.columns,
                counts: found.counts,
                passes: found.passes,
            },
            Err(refusal) => Checked {
                answer: refusal.into(),
                rows: 0,
                columns: 0,
                counts: Counts::default(),
                passes: 0,
            },
        }
    }
}

// Repair of an opened file's bodies. The four buffers come one by one here and below, as C hands them over.
fn repair_opened(
    file: &[u8],
    sides: Sides,
    out: &mut [u8],
    marks: &mut [u8],
    row_out: &mut [u8],
    column_out: &mut [u8],
) -> Result<Repaired, Refusal>
    ensures { ◌≡◌ {A = StoreRepaired}
        (record {
          answer = repair_answer result;
          passes = repair_passes result;
          lines = out.new;
          marks = marks.new;
          row_table = row_out.new;
          column_table = column_out.new;
        })
        (repair_opened file.now sides.rows sides.columns
        (lent out.old marks.old row_out.old column_out.old)) }
{
    let lines = opening::part_of(file, header::lines_part(sides.rows, sides.columns));
    let row_table = opening::part_of(file, header::row_table_part(sides.rows, sides.columns));
    let column_table = opening::part_of(file, header::column_table_part(sides.rows, sides.columns));
    repair::repair(
        sides.rows,
        sides.columns,
        lines,
        row_table,
        column_table,
        out,
        marks,
        row_out,
        column_out,
    )
}

// A check of a store whose rows and columns are at most a limit.
pub fn check_within(
    limit: usize,
    file: &[u8],
    out: &mut [u8],
    marks: &mut [u8],
    row_out: &mut [u8],
    column_out: &mut [u8],
) -> Result<Found, Refusal>
    ensures { ◌≡◌ {A = StoreChecked}
        (record {
          checked = checked_as result;
          buffers = lent out.new marks.new row_out.new column_out.new;
        })
        (check_store limit file.now
        (lent out.old marks.old row_out.old column_out.old)) }
{
    let sides = opening::open_within(limit, file)?;
    let repaired = repair_opened(file, sides, out, marks, row_out, column_out)?;
    Ok(Found {
        outcome: repaired.outcome,
        sides,
        counts: marks::count_all(marks),
        passes: repaired.passes,
    })
}

// A check of a store.
pub fn check(
    file: &[u8],
    out: &mut [u8],
    marks: &mut [u8],
    row_out: &mut [u8],
    column_out: &mut [u8],
) -> Result<Found, Refusal>
    ensures { ◌≡◌ {A = StoreChecked}
        (record {
          checked = checked_as result;
          buffers = lent out.new marks.new row_out.new column_out.new;
        })
        (check_store 512 file.now
        (lent out.old marks.old row_out.old column_out.old)) }
{
    check_within(512, file, out, marks, row_out, column_out)
}
