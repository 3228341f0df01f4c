// The report's numbers, as a program in another language reads them.
ghost use Rattle.std.specs.Prelude.{◌≡◌};
ghost use Rattle.report.specs.Numbers.{check_numbers};

use crate::report::Checked;

// Rows and columns, the counts of marks 0 to 4, and the passes. A function, which callers have: a `From` would say the same again.
#[tactic(auto, unfolding(crate::specs::Numbers::check_numbers))]
pub fn numbers(c: Checked) -> [u64; 8]
    ensures { result ≡ check_numbers c }
{
    let counts = c.counts;
    [
        c.rows as u64,
        c.columns as u64,
        counts.clean,
        counts.alone,
        counts.trial,
        counts.rebuilt,
        counts.faulty,
        c.passes as u64,
    ]
}
