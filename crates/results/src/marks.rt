// How often each mark stands in a mark buffer.
ghost use Rattle.std.specs.Prelude.{◌≡◌, ◌+◌, ◌≤◌, ◌<◌, length};
ghost use Rattle.results.specs.Marks.{counts_of, total, plus_counts};

use std::ops::Add;

// The counts of marks 0 to 4; where nothing was counted, the default.
#[derive(Clone, Copy, Default)]
pub struct Counts {
    pub clean: u64,
    pub alone: u64,
    pub trial: u64,
    pub rebuilt: u64,
    pub faulty: u64,
}

// The counts of two lists of marks together, in turn. Callers know that they are small.
impl Add for Counts {
    type Output = Counts;

    ghost can_add = { λ a b. total a + total b < 18446744073709551616 };

    ghost add_gives = { λ a b sum. sum ≡ plus_counts a b };

    #[tactic(auto, unfolding(crate::specs::Marks::plus_counts))]
    fn add(self, other: Counts) -> Counts {
        Counts {
            clean: self.clean + other.clean,
            alone: self.alone + other.alone,
            trial: self.trial + other.trial,
            rebuilt: self.rebuilt + other.rebuilt,
            faulty: self.faulty + other.faulty,
        }
    }
}

// The counts of a piece of at most 192 marks, which bytes hold: so the compiler counts sixteen marks at a step.
fn count_piece(marks: &[u8]) -> Counts
    requires { length marks.now ≤ 192 }
    ensures { result ≡ counts_of marks.now }
{
    let mut clean = 0u8;
    let mut alone = 0u8;
    let mut trial = 0u8;
    let mut rebuilt = 0u8;
    let mut faulty = 0u8;
    for &mark in marks {
        clean += u8::from(mark == 0);
        alone += u8::from(mark == 1);
        trial += u8::from(mark == 2);
        rebuilt += u8::from(mark == 3);
        faulty += u8::from(mark == 4);
    }
    Counts {
        clean: u64::from(clean),
        alone: u64::from(alone),
        trial: u64::from(trial),
        rebuilt: u64::from(rebuilt),
        faulty: u64::from(faulty),
    }
}

// The counts of all five marks: whole pieces, whose length the compiler then knows, and the rest.
pub fn count_all(marks: &[u8]) -> Counts
    ensures { result ≡ counts_of marks.now }
{
    let (pieces, rest) = marks.as_chunks::<192>();
    let mut counts = Counts::default();
    for piece in pieces {
        counts = counts + count_piece(piece);
    }
    counts + count_piece(rest)
}
