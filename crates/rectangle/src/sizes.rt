// The sizes that every entry point tests first: refusals 2, 5 and 6.
ghost use Rattle.std.specs.Prelude.{◌≡◌, ◌&&◌, ◌*◌, ◌≤◌, IfOk, eqb};
ghost use Rattle.rectangle.specs.Answers.{answer_of};
ghost use Rattle.rectangle.specs.Refusals.{unless, sides_fit};

use crate::answers::Refusal;

// Whether rows and columns lie in 2 to 512.
#[tactic(auto, unfolding(crate::specs::Refusals::sides_fit, crate::specs::Refusals::side_fits))]
pub fn sides_fit(rows: usize, columns: usize) -> bool
    ensures { result ≡ sides_fit rows columns }
{
    (2..=512).contains(&rows) && (2..=512).contains(&columns)
}

// The rows and columns of a rectangle.
#[derive(Clone, Copy)]
pub struct Sides {
    pub rows: usize,
    pub columns: usize,
    ghost rows_fit: { (2 ≤ rows) × (rows ≤ 512) },
    ghost columns_fit: { (2 ≤ columns) × (columns ≤ 512) },
}

impl Sides {
    // Rows and columns, where they are a rectangle's.
    #[tactic(auto, unfolding(crate::specs::Refusals::sides_fit, crate::specs::Refusals::side_fits))]
    pub fn new(rows: usize, columns: usize) -> Result<Sides, Refusal>
        ensures answer { answer_of result ≡ unless (sides_fit rows columns) 2 0 }
        ensures given { IfOk result (λ sides. (sides.rows ≡ rows) × (sides.columns ≡ columns)) }
    {
        if sides_fit(rows, columns) {
            Ok(Sides { rows, columns })
        } else {
            Err(Refusal::Sides)
        }
    }

    // How many lines there are.
    pub fn lines(self) -> usize
        ensures { result ≡ self.rows * self.columns }
    {
        self.rows * self.columns
    }
}

// The first of refusals 2, 5 and 6 that fits, if any. What is handed in has so many bytes: the lines, and each table. Sizes and buffers come
// one by one, as C hands them over: no type could promise that they fit before this test.
#[tactic(auto, using(crate::proofs::Area::area, crate::proofs::Groups::sides))]
pub fn check(
    rows: usize,
    columns: usize,
    lines: usize,
    row_table: usize,
    column_table: usize,
) -> Result<Sides, Refusal>
    ensures answer { answer_of result
        ≡ unless (sides_fit rows columns) 2
        (unless (eqb lines (rows * columns * 70)) 5
        (unless (eqb row_table (rows * 70) && eqb column_table (columns * 70)) 6 0)) }
    ensures given { IfOk result (λ sides. (sides.rows ≡ rows) × (sides.columns ≡ columns)) }
{
    let sides = Sides::new(rows, columns)?;
    if lines != sides.lines() * 70 {
        return Err(Refusal::Lines);
    }
    if row_table != rows * 70 || column_table != columns * 70 {
        return Err(Refusal::Tables);
    }
    Ok(sides)
}
