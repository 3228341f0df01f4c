// A visit of one group: the trials, and the rebuilding of a line that is left alone. Document 01, "Repair".
// `visit_group` is public for `repair`, which has tested or made what it asks; not an entry point.
ghost use Rattle.std.specs.Prelude.{◌≡◌, ◌++◌, ℕ, ◌*◌, ◌<◌, length, get_or, set};
ghost use Rattle.gf2.specs.Word.{Word};
ghost use Rattle.linecode.specs.Places.{line_places, line_of};
ghost use Rattle.scheme.specs.Layer.{read_line};
ghost use Rattle.scheme.specs.Visit.{State, try_lines, settle, trial as trial·, visit};
ghost use Rattle.rectangle.specs.Store.{line_layer, stride};
ghost use Rattle.groups.specs.Lent.{Ready, Carried, Makes, Numbered, Picked, number_of, group_of};

use groups::{Chosen, tracked};
use line_table::LineTable;
use linecode::place;
use rectangle::lines;
use rectangle::sizes::Sides;
use std::convert::Into;

// A faulty line is mended: the new line and its mark are written, and its row and its column learn of the change and have one faulty line
// less. The five buffers are parameters of their own: in a struct of five `&mut`, each function's contract would also have to say that
// every field is still the caller's buffer, which is longer than the list. The mark is a byte, as in `Reading`.
fn mend(
    out: &mut [u8],
    marks: &mut [u8],
    row_lacks: &mut [u8],
    column_lacks: &mut [u8],
    faulty: &mut [u16],
    sides: Sides,
    n: usize,
    line: [u8; 70],
    mark: u8,
)
    requires ready { Ready sides.rows sides.columns out.old marks.old row_lacks.old column_lacks.old faulty.old }
    requires faulty { (n < sides.rows * sides.columns) × (get_or marks.old n 0 ≡ 4) × (mark < 4) }
    ensures { (parity : ℕ → Word) (s : State) (w : Word)
        → Carried sides.rows sides.columns parity out.old marks.old
        (row_lacks.old ++ column_lacks.old) faulty.old s
        → length w ≡ line_places → line ≡ line_of w
        → Carried sides.rows sides.columns parity out.new marks.new
        (row_lacks.new ++ column_lacks.new) faulty.new (set s n (record { line = w; mark = mark })) }
{
    let change = place::xor_lines(lines::line_at(out, n), line);
    lines::put_line(out, n, line);
    marks[n] = mark;
    let row = sides.row_of(n);
    let column = sides.column_of(n);
    lines::add_to_row_sum(row_lacks, row, change);
    tracked::one_less(faulty, sides.rows, row.into());
    lines::add_to_column_sum(column_lacks, column, change);
    tracked::one_less(faulty, sides.rows, column.into());
}

// Each faulty line of the group in rising order tries each place in rising order: flip it, read the line alone. The first accepted
// trial ends the search for that line. The loops stand here and in `visiting`, nested and left by a label as document 01 names them: what is
// read and what is written differ, and only the two headers would be shared.
fn trial(
    table: &LineTable,
    out: &mut [u8],
    marks: &mut [u8],
    row_lacks: &mut [u8],
    column_lacks: &mut [u8],
    faulty: &mut [u16],
    sides: Sides,
    chosen: Chosen,
    tries: &[usize],
)
    requires ready { Ready sides.rows sides.columns out.old marks.old row_lacks.old column_lacks.old faulty.old }
    requires group { Numbered sides.rows sides.columns (number_of sides.rows chosen.which) chosen.span.first chosen.span.step chosen.span.count }
    ensures { Makes sides.rows sides.columns out.old marks.old
        (row_lacks.old ++ column_lacks.old) faulty.old
        out.new marks.new (row_lacks.new ++ column_lacks.new)
        faulty.new (λ parity s. try_lines (read_line line_layer) tries.now s
        (stride chosen.span.first chosen.span.step chosen.span.count)) }
{
    for i in 0..chosen.span.count {
        let n = chosen.span.line(i);
        if marks[n] == 4 {
            let line = lines::line_at(out, n);
            'search: for place in tries {
                let tried = reading::read(table, place::flip_place(line, *place));
                if tried.mark != 4 {
                    mend(
                        out,
                        marks,
                        row_lacks,
                        column_lacks,
                        faulty,
                        sides,
                        n,
                        tried.line,
                        2,
                    );
                    break 'search;
                }
            }
        }
    }
}

// If exactly one line of the group is faulty, it is rebuilt: the group's difference, added to it, leaves the parity line and the others.
// It stands in `visiting` too, as `try_group` does.
fn settle_group(
    out: &mut [u8],
    marks: &mut [u8],
    row_lacks: &mut [u8],
    column_lacks: &mut [u8],
    faulty: &mut [u16],
    sides: Sides,
    chosen: Chosen,
)
    requires ready { Ready sides.rows sides.columns out.old marks.old row_lacks.old column_lacks.old faulty.old }
    requires group { Picked sides.rows sides.columns chosen.which chosen.span.first chosen.span.step chosen.span.count }
    ensures { Makes sides.rows sides.columns out.old marks.old
        (row_lacks.old ++ column_lacks.old) faulty.old
        out.new marks.new (row_lacks.new ++ column_lacks.new)
        faulty.new (λ parity. settle (group_of sides.rows sides.columns parity (number_of sides.rows chosen.which))) }
{
    let which = chosen.which;
    let alone = tracked::count(faulty, sides.rows, which) == 1;
    if !alone {
        return;
    }
    let Some(n) = groups::first_faulty(marks, chosen.span) else {
        return;
    };
    let lack = tracked::difference(row_lacks, column_lacks, which);
    let rebuilt = place::xor_lines(lines::line_at(out, n), lack);
    mend(
        out,
        marks,
        row_lacks,
        column_lacks,
        faulty,
        sides,
        n,
        rebuilt,
        3,
    );
}

// Where two or more lines are faulty, the difference is the mismatch; if it has 1 to 6 places, the faulty lines try them. `visiting` works
// count and difference out, and here both are looked up: one body for both would need the buffers in a struct, for which see `mend`.
fn try_group(
    table: &LineTable,
    out: &mut [u8],
    marks: &mut [u8],
    row_lacks: &mut [u8],
    column_lacks: &mut [u8],
    faulty: &mut [u16],
    sides: Sides,
    chosen: Chosen,
)
    requires ready { Ready sides.rows sides.columns out.old marks.old row_lacks.old column_lacks.old faulty.old }
    requires group { Picked sides.rows sides.columns chosen.which chosen.span.first chosen.span.step chosen.span.count }
    ensures { Makes sides.rows sides.columns out.old marks.old
        (row_lacks.old ++ column_lacks.old) faulty.old
        out.new marks.new (row_lacks.new ++ column_lacks.new)
        faulty.new (λ parity. trial· (read_line line_layer) (group_of sides.rows sides.columns parity (number_of sides.rows chosen.which))) }
{
    let which = chosen.which;
    if tracked::count(faulty, sides.rows, which) < 2 {
        return;
    }
    let lack = tracked::difference(row_lacks, column_lacks, which);
    let Some(tries) = groups::set_places::<6>(lack) else {
        return;
    };
    if tries.is_empty() {
        return;
    }
    trial(
        table,
        out,
        marks,
        row_lacks,
        column_lacks,
        faulty,
        sides,
        chosen,
        tries.as_slice(),
    );
}

// A visit: the trials, then the rebuilding. Two calls, which `visiting` has over its own two functions.
pub fn visit_group(
    table: &LineTable,
    out: &mut [u8],
    marks: &mut [u8],
    row_lacks: &mut [u8],
    column_lacks: &mut [u8],
    faulty: &mut [u16],
    sides: Sides,
    chosen: Chosen,
)
    requires ready { Ready sides.rows sides.columns out.old marks.old row_lacks.old column_lacks.old faulty.old }
    requires group { Picked sides.rows sides.columns chosen.which chosen.span.first chosen.span.step chosen.span.count }
    ensures { Makes sides.rows sides.columns out.old marks.old
        (row_lacks.old ++ column_lacks.old) faulty.old
        out.new marks.new (row_lacks.new ++ column_lacks.new)
        faulty.new (λ parity. visit (read_line line_layer) (group_of sides.rows sides.columns parity (number_of sides.rows chosen.which))) }
{
    try_group(
        table,
        out,
        marks,
        row_lacks,
        column_lacks,
        faulty,
        sides,
        chosen,
    );
    settle_group(out, marks, row_lacks, column_lacks, faulty, sides, chosen);
}
