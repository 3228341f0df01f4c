// What the entry points answer, as document 01 numbers it under "Turned back, in checking order": a call that is turned back, and with
// what repair hands a store over.
ghost use Rattle.std.specs.Prelude.{◌≡◌};
ghost use Rattle.rectangle.specs.Answers.{number_of, outcome_number, OutcomeOf};

use crate::lines::{ColumnIndex, RowIndex};

// Why a call is turned back.
#[derive(Clone, Copy, PartialEq, Eq)]
pub enum Refusal {
    // The file is shorter than its header.
    Short,
    // Rows or columns lie outside 2 to 512.
    Sides,
    // Rows or columns exceed what the program takes.
    Limit,
    // The contents table or the file's length isn't the one that rows and columns require.
    Contents,
    // The lines handed in have another length.
    Lines,
    // A table has another length.
    Tables,
    // Any other buffer has another length.
    Room,
    // There is no line of that number.
    Number,
    // A line that is to be read alone is faulty.
    Faulty,
    // The parity line of the row, or of the column, of a line to be changed isn't a correct line.
    RowParity(RowIndex),
    ColumnParity(ColumnIndex),
    // What is handed in is no report on a tour, or nothing that one can take in.
    NoReport,
}

impl From<Refusal> for u32 {
    ghost from_gives = { λ refusal n. n ≡ number_of refusal };

    fn from(refusal: Refusal) -> u32 {
        match refusal {
            Refusal::Short => 1,
            Refusal::Sides => 2,
            Refusal::Limit => 3,
            Refusal::Contents => 4,
            Refusal::Lines => 5,
            Refusal::Tables => 6,
            Refusal::Room => 7,
            Refusal::Number => 8,
            Refusal::Faulty => 10,
            Refusal::RowParity(_) => 13,
            Refusal::ColumnParity(_) => 14,
            Refusal::NoReport => 15,
        }
    }
}

// With what repair hands a store over: no line is faulty and every parity line agrees, faulty lines are left, or some parity line differs.
#[derive(Clone, Copy, PartialEq, Eq)]
pub enum Outcome {
    Done,
    Left,
    Differs,
}

impl From<Outcome> for u32 {
    ghost from_gives = { λ outcome n. n ≡ outcome_number outcome };

    fn from(outcome: Outcome) -> u32 {
        match outcome {
            Outcome::Done => 0,
            Outcome::Left => 11,
            Outcome::Differs => 12,
        }
    }
}

// A number that is no outcome's comes back as it is.
impl TryFrom<u32> for Outcome {
    type Error = u32;

    ghost try_from_gives = { OutcomeOf };

    fn try_from(number: u32) -> Result<Outcome, u32> {
        match number {
            0 => Ok(Outcome::Done),
            11 => Ok(Outcome::Left),
            12 => Ok(Outcome::Differs),
            _ => Err(number),
        }
    }
}
