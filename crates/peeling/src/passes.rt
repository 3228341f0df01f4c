// Passes over all groups, rows 0 upward and then columns 0 upward, in which only rebuilding is done.
// Public for the crate's other modules; the module is private, and what its functions ask, `forecast` has tested or made.
// Sides, marks and counts are parameters of their own, for the reason given at `counts`.
ghost use Rattle.groups.specs.Lent.{Within, members_of, number_of};
ghost use Rattle.peeling.specs.Lent.{Counted, Visits, Passes, RanPasses};

use crate::counts;
use groups::tracked;
use groups::tracked::Which;
use rectangle::sizes::Sides;

// A visit: if exactly one line of the group is faulty, it is rebuilt. A group comes to this once at most, so that all searches for such
// a line together look at each line at most twice. `mending` rebuilds by the group's difference, which is not known here: only the search is
// the same, and that is `groups::first_faulty`.
fn visit_group(marks: &mut [u8], faulty: &mut [u16], sides: Sides, which: Which)
    requires { Counted sides.rows sides.columns marks.old faulty.old × Within sides.rows sides.columns which }
    ensures { Visits (members_of sides.rows sides.columns (number_of sides.rows which)) marks.old marks.new
        × Counted sides.rows sides.columns marks.new faulty.new }
{
    let alone = tracked::count(faulty, sides.rows, which) == 1;
    if !alone {
        return;
    }
    let chosen = groups::choose(sides, which);
    let Some(n) = groups::first_faulty(marks, chosen.span) else {
        return;
    };
    counts::rebuild(marks, faulty, sides, n);
}

// All groups are visited. In `repair` the test and the visit are others: only the `for` is alike.
fn visit_all(marks: &mut [u8], faulty: &mut [u16], sides: Sides)
    requires { Counted sides.rows sides.columns marks.old faulty.old }
    ensures { Passes sides.rows sides.columns marks.old marks.new
        × Counted sides.rows sides.columns marks.new faulty.new }
{
    for k in 0..sides.rows + sides.columns {
        visit_group(marks, faulty, sides, groups::nth(sides, k));
    }
}

// While some line is faulty, a pass; passes end when none is faulty or a pass rebuilt nothing. Returns their number. A `while`, since nothing
// is counted up to a bound; for the same loop in `repair` see there.
pub fn run_passes(marks: &mut [u8], faulty: &mut [u16], sides: Sides) -> usize
    requires { Counted sides.rows sides.columns marks.old faulty.old }
    ensures { RanPasses sides.rows sides.columns marks.old marks.new result }
{
    let mut passes = 0;
    let mut before = groups::count_faulty(sides, faulty);
    while 0 < before {
        visit_all(marks, faulty, sides);
        passes += 1;
        let left = groups::count_faulty(sides, faulty);
        if left == before {
            return passes;
        }
        before = left;
    }
    passes
}
