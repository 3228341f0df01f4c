// A store as it is lent to be read: its lines and both tables of parity lines.
ghost use Rattle.std.specs.Prelude.{◌≡◌, ◌&&◌, ◌*◌, IfOk, eqb, length};
ghost use Rattle.rectangle.specs.Answers.{answer_of};
ghost use Rattle.rectangle.specs.Refusals.{unless, sides_fit};

use crate::answers::Refusal;
use crate::sizes;
use crate::sizes::Sides;

// Each part is as long as the sides ask.
#[derive(Clone, Copy)]
pub struct Store<'a> {
    pub sides: Sides,
    pub lines: &'a [u8],
    pub row_table: &'a [u8],
    pub column_table: &'a [u8],
    ghost line_bytes: { length lines.now ≡ sides.rows * sides.columns * 70 },
    ghost row_bytes: { length row_table.now ≡ sides.rows * 70 },
    ghost column_bytes: { length column_table.now ≡ sides.columns * 70 },
}

impl<'a> Store<'a> {
    // The parts as a store, or the first of refusals 2, 5 and 6 that fits.
    pub fn new(
        rows: usize,
        columns: usize,
        lines: &'a [u8],
        row_table: &'a [u8],
        column_table: &'a [u8],
    ) -> Result<Store<'a>, Refusal>
        ensures answer { answer_of result
            ≡ unless (sides_fit rows columns) 2
            (unless (eqb (length lines.now) (rows * columns * 70)) 5
            (unless (eqb (length row_table.now) (rows * 70) && eqb (length column_table.now) (columns * 70)) 6 0)) }
        ensures given { IfOk result (λ store. (store.sides.rows ≡ rows) × (store.sides.columns ≡ columns)
            × (store.lines.now ≡ lines.now) × (store.row_table.now ≡ row_table.now)
            × (store.column_table.now ≡ column_table.now)) }
    {
        let sides = sizes::check(
            rows,
            columns,
            lines.len(),
            row_table.len(),
            column_table.len(),
        )?;
        Ok(Store {
            sides,
            lines,
            row_table,
            column_table,
        })
    }
}
