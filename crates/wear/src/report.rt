// What is a report: the empty one, and the tests that any numbers handed in must pass.
ghost use Rattle.std.specs.Prelude.{◌≡◌, ◌+◌, ◌<◌, eqb, MatchOption};
ghost use Rattle.results.specs.Marks.{total};
ghost use Rattle.tour.specs.Wear.{empty};
ghost use Rattle.tour.specs.Adding.{answers_total, is_report};

use results::marks::Counts;
use tour::{Answers, Wear};

// The empty report.
pub fn empty_report() -> Wear
    ensures { result ≡ empty }
{
    Wear::default()
}

// What is left of a number when five are taken away from it, one after the other. They may be any: each is taken away from what is left, and
// no sum is made.
fn left_of(sum: u64, a: u64, b: u64, c: u64, d: u64, e: u64) -> Option<u64>
    ensures { MatchOption result (sum < a + b + c + d + e) (λ left. left + (a + b + c + d + e) ≡ sum) }
{
    sum.checked_sub(a)?
        .checked_sub(b)?
        .checked_sub(c)?
        .checked_sub(d)?
        .checked_sub(e)
}

// Whether the lines for each mark add up to the lines.
pub fn marks_add_up(c: Counts, lines: u64) -> bool
    ensures { result ≡ eqb (total c) lines }
{
    left_of(lines, c.clean, c.alone, c.trial, c.rebuilt, c.faulty) == Some(0)
}

// Whether the stores for each answer add up to the stores.
fn answers_add_up(a: Answers, stores: u64) -> bool
    ensures { result ≡ eqb (answers_total a) stores }
{
    left_of(stores, a.done, a.left, a.differs, 0, 0) == Some(0)
}

// Whether some numbers are a report. The product is made once the stores are known to be few.
#[tactic(auto, unfolding(tour::specs::Adding::is_report, tour::specs::Adding::most_stores, tour::specs::Adding::most_lines))]
pub fn is_report(w: Wear) -> bool
    ensures { result ≡ is_report w }
{
    w.stores <= 1000000
        && w.lines <= 4194304 * w.stores
        && marks_add_up(w.marks, w.lines)
        && answers_add_up(w.answers, w.stores)
}
