// The answers of repair.
ghost use Rattle.std.specs.Prelude.{◌≡◌, true, false, MatchOption};
ghost use Rattle.rectangle.specs.Answers.{outcome_number};
ghost use Rattle.rectangle.specs.Repair.{hands_over};

use rectangle::answers::Outcome;

// With what repair hands a store over, where an answer says that it does.
pub fn hands_over(answer: u32) -> Option<Outcome>
    ensures { MatchOption result (hands_over answer ≡ false) (λ outcome. (hands_over answer ≡ true) × (outcome_number outcome ≡ answer)) }
{
    Outcome::try_from(answer).ok()
}
