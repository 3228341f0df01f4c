// Where a file's bodies stand, as numbers: what a program in another language is told of a file that it holds.
ghost use Rattle.std.specs.Prelude.{◌≡◌};
ghost use Rattle.storefile.specs.Given.{layout_as};
ghost use Rattle.storefile.specs.Layout.{layout_numbers, layout_in};

use crate::{header, opening};
use rectangle::answers::Refusal;
use rectangle::sizes::Sides;

// The eight numbers of a store: its rows and columns, and the offset and length of each of the file's three parts. No `From`: neither type
// belongs to this crate.
#[tactic(auto, unfolding(crate::specs::Layout::layout_numbers))]
fn numbers(sides: Sides) -> [u64; 8]
    ensures { result ≡ layout_numbers sides.rows sides.columns }
{
    let lines = header::lines_part(sides.rows, sides.columns);
    let row_table = header::row_table_part(sides.rows, sides.columns);
    let column_table = header::column_table_part(sides.rows, sides.columns);
    [
        sides.rows as u64,
        sides.columns as u64,
        lines.offset as u64,
        lines.size as u64,
        row_table.offset as u64,
        row_table.size as u64,
        column_table.offset as u64,
        column_table.size as u64,
    ]
}

// A file opened, and where its bodies stand.
pub fn layout_of(file: &[u8]) -> Result<[u64; 8], Refusal>
    ensures { layout_as result ≡ layout_in file.now }
{
    opening::open(file).map(numbers)
}
