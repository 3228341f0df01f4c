// One repair result taken into a report.
ghost use Rattle.std.specs.Prelude.{◌≡◌, true, ◌&&◌, [], ◌∷◌, ◌≤◌, leb};
ghost use Rattle.rectangle.specs.Answers.{outcome_number};
ghost use Rattle.results.specs.Marks.{total};
ghost use Rattle.tour.specs.Wear.{answers_of};
ghost use Rattle.tour.specs.Adding.{most_lines, is_report, has_room, plus_answers, plus as plus·, add_store};
ghost use Rattle.tour.specs.Given.{added_to};

use crate::report;
use rectangle::answers::{Outcome, Refusal};
use results::marks::Counts;
use results::{answers, marks};
use tour::{Answers, Wear};

// The stores for each answer, with one more.
#[tactic(auto, unfolding(tour::specs::Adding::plus_answers, tour::specs::Wear::answers_of, results::specs::Marks::count_of))]
fn plus_answer(a: Answers, outcome: Outcome) -> Answers
    requires { (a.done ≤ 1000000) × (a.left ≤ 1000000) × (a.differs ≤ 1000000) }
    ensures { result ≡ plus_answers a (answers_of (outcome_number outcome ∷ [])) }
{
    let mut sums = a;
    match outcome {
        Outcome::Done => sums.done += 1,
        Outcome::Left => sums.left += 1,
        Outcome::Differs => sums.differs += 1,
    }
    sums
}

// A report with one store more, of which the lines for each mark are known.
fn plus_store(w: Wear, counts: Counts, lines: u64, outcome: Outcome) -> Wear
    requires { (is_report w ≡ true) × (lines ≤ 4194304) × (total counts ≡ lines) }
    ensures { result ≡ plus· w (record { stores = 1; lines = lines; marks = counts; answers = answers_of (outcome_number outcome ∷ []) }) }
{
    Wear {
        stores: w.stores + 1,
        lines: w.lines + lines,
        marks: w.marks + counts,
        answers: plus_answer(w.answers, outcome),
    }
}

// Whether a report takes in a store of so many lines, whatever its marks and its answer are.
#[tactic(auto, unfolding(tour::specs::Adding::has_room, tour::specs::Adding::most_stores, tour::specs::Adding::most_lines))]
fn takes(w: Wear, lines: u64) -> bool
    ensures { result ≡ is_report w && (has_room w && (leb 4 lines && leb lines most_lines)) }
{
    report::is_report(w) && w.stores < 1000000 && (4..=4194304).contains(&lines)
}

// The entry point: one repair result more, or 15. A caller in another language hands the answer over as its number. Marks that are none
// of 0 to 4 are in no count: where there are any, the counts don't add up to the lines.
pub fn add(w: Wear, marks: &[u8], answer: u32) -> Result<Wear, Refusal>
    ensures { added_to w result ≡ add_store w (record { marks = marks.now; answer = answer }) }
{
    let outcome = answers::hands_over(answer).ok_or(Refusal::NoReport)?;
    let lines = marks.len() as u64;
    if !takes(w, lines) {
        return Err(Refusal::NoReport);
    }
    let counts = marks::count_all(marks);
    if !report::marks_add_up(counts, lines) {
        return Err(Refusal::NoReport);
    }
    Ok(plus_store(w, counts, lines, outcome))
}
