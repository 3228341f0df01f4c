// What rebuilding alone would save (request Q-6): marks and passes from one byte for each line. A rebuilding takes one faulty line out of a
// row or column that has no other, as a peeling decoder takes out erasures; beside each group stands how many of its lines are faulty, so
// that a visit costs a look at that number. Definitions and promises are in `forecast`.
#![tactic(auto)]

mod counts;
mod passes;
mod pattern;

ghost use Rattle.std.specs.Prelude.{◌≡◌, IfOk};
ghost use Rattle.rectangle.specs.Answers.{answer_of};
ghost use Rattle.forecast.specs.Forecast.{Forecast, forecast_refusal, forecast as forecast·};
ghost use Rattle.peeling.specs.Lent.{passes_of};

use rectangle::answers::Refusal;
use rectangle::sizes::Sides;

// The first refusal that fits, if any. Sizes and buffers come one by one here and below, as C hands them over.
#[tactic(auto, using(rectangle::proofs::Area::area), unfolding(forecast::specs::Forecast::forecast_refusal, forecast::specs::Forecast::one_for_each))]
fn check(rows: usize, columns: usize, pattern: &[u8], marks: &[u8]) -> Result<Sides, Refusal>
    ensures answer { answer_of result ≡ forecast_refusal rows columns pattern.now marks.now }
    ensures given { IfOk result (λ sides. (sides.rows ≡ rows) × (sides.columns ≡ columns)) }
{
    let sides = Sides::new(rows, columns)?;
    if pattern.len() != sides.lines() || marks.len() != sides.lines() {
        return Err(Refusal::Room);
    }
    Ok(sides)
}

// From one byte for each line, 0 whole and anything else faulty: the marks, 0 whole, 3 rebuilt and 4 faulty, and the number of passes.
pub fn forecast(
    rows: usize,
    columns: usize,
    pattern: &[u8],
    marks: &mut [u8],
) -> Result<usize, Refusal>
    ensures { ◌≡◌ {A = Forecast}
        (record { answer = answer_of result; passes = passes_of result; marks = marks.new })
        (forecast· rows columns pattern.now marks.old) }
{
    let sides = check(rows, columns, pattern, marks)?;
    pattern::mark_lines(pattern, marks);
    let mut faulty = [0u16; 1024];
    counts::count_all(marks, &mut faulty, sides);
    Ok(passes::run_passes(marks, &mut faulty, sides))
}
