// Passes over all groups: rows 0 upward, then columns 0 upward. Document 01, "Repair".
// Public for the crate's other modules; the module is private, and what its functions ask, `repair::repair` has tested or made.
// The buffers are parameters of their own, for the reason given at `mending::visit`.
ghost use Rattle.std.specs.Prelude.{◌≡◌, not, ◌&&◌, ◌++◌, ◌<◌, eqb, length, get_or};
ghost use Rattle.scheme.specs.Layer.{read_line};
ghost use Rattle.scheme.specs.Repair.{pass};
ghost use Rattle.rectangle.specs.Store.{line_layer};
ghost use Rattle.groups.specs.Lent.{Ready, Makes, number_of};
ghost use Rattle.repair.specs.Lent.{all_groups, RanPasses};

use groups::tracked;
use groups::tracked::Which;
use line_table::LineTable;
use mending::visit;
use rectangle::sizes::Sides;

// Whether a visit of a group may do anything: some line of it is faulty, and it is usable.
fn needs_visit(faulty: &[u16], parity_marks: &[u8], sides: Sides, which: Which) -> bool
    requires { (number_of sides.rows which < 1024) × (length faulty.now ≡ 1024) × (length parity_marks.now ≡ 1024) }
    ensures { result
        ≡ (not (eqb (get_or faulty.now (number_of sides.rows which) 0) 0)
        && not (eqb (get_or parity_marks.now (number_of sides.rows which) 0) 4)) }
{
    tracked::count(faulty, sides.rows, which) != 0
        && tracked::is_usable(parity_marks, sides.rows, which)
}

// All groups are visited; one without a faulty line costs a look at its count, and an unusable one is passed over. In
// `peeling` the test and the visit are others: only the `for` is alike.
fn visit_all(
    table: &LineTable,
    out: &mut [u8],
    marks: &mut [u8],
    row_lacks: &mut [u8],
    column_lacks: &mut [u8],
    faulty: &mut [u16],
    parity_marks: &[u8],
    sides: Sides,
)
    requires ready { Ready sides.rows sides.columns out.old marks.old row_lacks.old column_lacks.old faulty.old }
    requires marks { length parity_marks.now ≡ 1024 }
    ensures { Makes sides.rows sides.columns out.old marks.old
        (row_lacks.old ++ column_lacks.old) faulty.old
        out.new marks.new (row_lacks.new ++ column_lacks.new)
        faulty.new (λ parity. pass (read_line line_layer) (all_groups sides.rows sides.columns parity_marks.now parity)) }
{
    for k in 0..sides.rows + sides.columns {
        let which = groups::nth(sides, k);
        if needs_visit(faulty, parity_marks, sides, which) {
            let chosen = groups::choose(sides, which);
            visit::visit_group(
                table,
                out,
                marks,
                row_lacks,
                column_lacks,
                faulty,
                sides,
                chosen,
            );
        }
    }
}

// While some line is faulty, a pass; passes end when none is faulty or a pass mended nothing. Returns their number. A `while`, since nothing
// is counted up to a bound. `peeling` has the same loop over its own buffers: a shared one would take the pass as a closure that borrows them
// all, and its law would have to carry their states from pass to pass, which is longer than the loop.
pub fn run_passes(
    table: &LineTable,
    out: &mut [u8],
    marks: &mut [u8],
    row_lacks: &mut [u8],
    column_lacks: &mut [u8],
    faulty: &mut [u16],
    parity_marks: &[u8],
    sides: Sides,
) -> usize
    requires ready { Ready sides.rows sides.columns out.old marks.old row_lacks.old column_lacks.old faulty.old }
    requires marks { length parity_marks.now ≡ 1024 }
    ensures { RanPasses sides.rows sides.columns parity_marks.now out.old marks.old
        (row_lacks.old ++ column_lacks.old) faulty.old
        out.new marks.new (row_lacks.new ++ column_lacks.new)
        faulty.new result }
{
    let mut passes: usize = 0;
    let mut before = groups::count_faulty(sides, faulty);
    while 0 < before {
        visit_all(
            table,
            out,
            marks,
            row_lacks,
            column_lacks,
            faulty,
            parity_marks,
            sides,
        );
        passes += 1;
        let left = groups::count_faulty(sides, faulty);
        if left == before {
            return passes;
        }
        before = left;
    }
    passes
}
