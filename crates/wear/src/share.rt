// The shares of rebuilt lines of two reports, compared by cross products.
ghost use Rattle.std.specs.Prelude.{◌≡◌, true, ◌*◌, ◌<◌};
ghost use Rattle.tour.specs.Adding.{is_report};
ghost use Rattle.tour.specs.Given.{compared_as};
ghost use Rattle.tour.specs.Share.{order_number, out_of, share_order, compare_shares};

use crate::report;
use rectangle::answers::Refusal;
use std::cmp::Ordering;
use tour::Wear;

// The product of two numbers of 42 bits, as a report's are.
#[tactic(auto, using(crate::proofs::Products::product_fits))]
fn product(x: u64, y: u64) -> u128
    requires { (x < 4398046511104) × (y < 4398046511104) }
    ensures { result ≡ x * y }
{
    u128::from(x) * u128::from(y)
}

// What a report's share is a share of: where there are no lines, of one.
#[tactic(auto, unfolding(tour::specs::Share::out_of))]
fn out_of(w: Wear) -> u64
    ensures { result ≡ out_of w }
{
    w.lines.max(1)
}

// The order of the shares of two reports.
fn share_order(a: Wear, b: Wear) -> Ordering
    requires { (is_report a ≡ true) × (is_report b ≡ true) }
    ensures { order_number result ≡ share_order a b }
{
    let first = product(a.marks.rebuilt, out_of(b));
    let second = product(b.marks.rebuilt, out_of(a));
    first.cmp(&second)
}

// The entry point: the order of two shares of rebuilt lines; 15 where one is no report.
#[tactic(auto, unfolding(tour::specs::Share::compare_shares))]
pub fn compare(a: Wear, b: Wear) -> Result<Ordering, Refusal>
    ensures { compared_as result ≡ compare_shares a b }
{
    if !report::is_report(a) || !report::is_report(b) {
        return Err(Refusal::NoReport);
    }
    Ok(share_order(a, b))
}
