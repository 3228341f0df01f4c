// Reports as ten numbers in a slice, as other languages hand them over.
ghost use Rattle.std.specs.Prelude.{◌≡◌, ◌≢◌, length, MatchResult};
ghost use Rattle.rectangle.specs.Answers.{answer_of};
ghost use Rattle.tour.specs.Numbers.{numbers_of, wear_in, NumbersAdded, add_numbers, compare_numbers};
ghost use Rattle.tour.specs.Given.{compared_as};

use crate::{adding, share};
use rectangle::answers::Refusal;
use results::marks::Counts;
use std::cmp::Ordering;
use tour::{Answers, Wear};

// The report that ten numbers are; another length is 7. No `TryFrom`, and no `From` below: `Wear` belongs to `tour`, which has no code.
#[tactic(auto, unfolding(tour::specs::Numbers::wear_in))]
fn read(numbers: &[u64]) -> Result<Wear, Refusal>
    ensures { MatchResult result
        (λ wear. (length numbers.now ≡ 10) × (wear ≡ wear_in numbers.now))
        (λ refusal. (length numbers.now ≢ 10) × (refusal ≡ Refusal.Room)) }
{
    let &[
        stores,
        lines,
        clean,
        alone,
        trial,
        rebuilt,
        faulty,
        done,
        left,
        differs,
    ] = numbers
    else {
        return Err(Refusal::Room);
    };
    Ok(Wear {
        stores,
        lines,
        marks: Counts {
            clean,
            alone,
            trial,
            rebuilt,
            faulty,
        },
        answers: Answers {
            done,
            left,
            differs,
        },
    })
}

// A report written as ten numbers.
#[tactic(auto, unfolding(tour::specs::Numbers::numbers_of))]
fn write(w: Wear) -> [u64; 10]
    ensures { result ≡ numbers_of w }
{
    [
        w.stores,
        w.lines,
        w.marks.clean,
        w.marks.alone,
        w.marks.trial,
        w.marks.rebuilt,
        w.marks.faulty,
        w.answers.done,
        w.answers.left,
        w.answers.differs,
    ]
}

// The entry point that adds: 7 for another length, then 15; a refusal writes nothing.
pub fn add_numbers(numbers: &mut [u64], marks: &[u8], answer: u32) -> Result<(), Refusal>
    ensures { ◌≡◌ {A = NumbersAdded}
        (record { answer = answer_of result; numbers = numbers.new })
        (add_numbers numbers.old (record { marks = marks.now; answer = answer })) }
{
    let wear = read(numbers)?;
    let after = adding::add(wear, marks, answer)?;
    numbers.copy_from_slice(&write(after));
    Ok(())
}

// The entry point that compares: 7 for another length, then 15.
#[tactic(auto, unfolding(tour::specs::Numbers::compare_numbers, tour::specs::Numbers::report_numbers))]
pub fn compare_numbers(a: &[u64], b: &[u64]) -> Result<Ordering, Refusal>
    ensures { compared_as result ≡ compare_numbers a.now b.now }
{
    share::compare(read(a)?, read(b)?)
}
