// The groups of a rectangle in visiting order, rows and then columns: their lines, and what stands beside each.
// Public for the crates above that visit groups, which have tested or made what these ask; not entry points.
#![tactic(auto)]

pub mod tracked;

ghost use Rattle.std.specs.Prelude.{false, ◌||◌, ◌≡◌, ◌++◌, ℕ, ◌+◌, ◌*◌, ◌≤◌, ◌<◌, eqb, length, get_or, slice_get, MatchOption};
ghost use Rattle.linecode.specs.Places.{places};
ghost use Rattle.linecode.specs.Code.{up_from};
ghost use Rattle.scheme.specs.Visit.{set_places};
ghost use Rattle.rectangle.specs.Store.{stride};
ghost use Rattle.rectangle.specs.Refusals.{every};
ghost use Rattle.groups.specs.Lent.{Inside, faulty_among, all_zero, agrees_at, count_to};
ghost use Rattle.groups.specs.Lent.{Within, Picked, which_of, number_of, difference_of, Reached};

use crate::tracked::Which;
use arrayvec::ArrayVec;
use linecode::place;
use rectangle::lines::{ColumnIndex, RowIndex};
use rectangle::sizes::Sides;

// Lines at equal steps: the first one's number, the step from one to the next, and their count.
#[derive(Clone, Copy, PartialEq, Eq)]
pub struct Span {
    pub first: usize,
    pub step: usize,
    pub count: usize,
}

impl Span {
    // The number of its line i.
    #[inline]
    pub fn line(self, i: usize) -> usize
        requires { (i < self.count) × (self.first + self.count * self.step ≤ 1000000) }
        ensures { result ≡ self.first + i * self.step }
    {
        self.first + i * self.step
    }
}

// A group with its lines. That the lines are the group's is asked where it is visited: the type could keep it with the sides as a field
// only, and each contract would then say that they are these sides.
#[derive(Clone, Copy, PartialEq, Eq)]
pub struct Chosen {
    pub which: Which,
    pub span: Span,
}

// Group k in visiting order: row k, or column k - rows.
pub fn nth(sides: Sides, k: usize) -> Which
    ensures { result ≡ which_of sides.rows k }
{
    if k < sides.rows {
        Which::Row(RowIndex(k))
    } else {
        Which::Column(ColumnIndex(k - sides.rows))
    }
}

// A group with its lines.
pub fn choose(sides: Sides, which: Which) -> Chosen
    requires { Within sides.rows sides.columns which }
    ensures { (result.which ≡ which) × Picked sides.rows sides.columns result.which result.span.first result.span.step result.span.count }
{
    let span = match which {
        Which::Row(row) => Span {
            first: row.0 * sides.columns,
            step: 1,
            count: sides.columns,
        },
        Which::Column(column) => Span {
            first: column.0,
            step: sides.columns,
            count: sides.rows,
        },
    };
    Chosen { which, span }
}

// The first faulty line of a group.
pub fn first_faulty(marks: &[u8], span: Span) -> Option<usize>
    requires { Inside span.first span.step span.count (length marks.now) }
    ensures { result ≡ slice_get (faulty_among marks.now (stride span.first span.step span.count)) 0 }
{
    for i in 0..span.count {
        let n = span.line(i);
        if marks[n] == 4 {
            return Some(n);
        }
    }
    None
}

// How many lines are faulty: those of the rows together.
pub fn count_faulty(sides: Sides, faulty: &[u16]) -> usize
    requires { length faulty.now ≡ 1024 }
    ensures { result ≡ count_to faulty.now sides.rows }
{
    let mut found = 0;
    for r in 0..sides.rows {
        found += tracked::count(faulty, sides.rows, Which::Row(RowIndex(r))) as usize;
    }
    found
}

// Whether every byte of a line is 0.
fn is_zero(line: [u8; 70]) -> bool
    ensures { result ≡ all_zero line }
{
    line.iter().all(|byte| *byte == 0)
}

// Whether a group is unusable, or its difference is 0.
fn agrees(
    sides: Sides,
    row_lacks: &[u8],
    column_lacks: &[u8],
    parity_marks: &[u8],
    which: Which,
) -> bool
    requires { (number_of sides.rows which < 1024) × (length parity_marks.now ≡ 1024)
        × Reached row_lacks.now column_lacks.now which }
    ensures { result
        ≡ (eqb (get_or parity_marks.now (number_of sides.rows which) 0) 4
        || all_zero (difference_of row_lacks.now column_lacks.now which)) }
{
    !tracked::is_usable(parity_marks, sides.rows, which)
        || is_zero(tracked::difference(row_lacks, column_lacks, which))
}

// Whether all groups agree with their parity lines, unusable ones left out.
pub fn all_agree(sides: Sides, row_lacks: &[u8], column_lacks: &[u8], parity_marks: &[u8]) -> bool
    requires { (length row_lacks.now ≡ sides.rows * 70) × (length column_lacks.now ≡ sides.columns * 70)
        × (length parity_marks.now ≡ 1024) }
    ensures { result
        ≡ every (agrees_at (row_lacks.now ++ column_lacks.now) parity_marks.now)
        (up_from 0 (sides.rows + sides.columns)) }
{
    // A `for`: a closure for `all` would ask that groups are inside at each turn, which the check does not find.
    for k in 0..sides.rows + sides.columns {
        if !agrees(sides, row_lacks, column_lacks, parity_marks, nth(sides, k)) {
            return false;
        }
    }
    true
}

// The place after place i that may be set next: where a byte of zeros begins at i, it is passed over.
fn after_place(line: [u8; 70], i: usize) -> usize
    requires { i < 553 }
    ensures { (i < result) × (result ≤ 553) × ((k : ℕ) → i < k → k < result → get_or (places line) k false ≡ false) }
{
    if i < 536 && i % 8 == 0 && line[i / 8] == 0 {
        i + 8
    } else {
        i + 1
    }
}

// How many of a line's bytes are not 0, of those whose eight bits are all places: each has a set place.
fn busy_bytes(line: [u8; 70]) -> usize
    ensures { result ≤ length (set_places 0 (places line)) }
{
    // A loop, which the compiler runs on many bytes at a step: a chain with `filter` and `count` takes twice as long.
    let mut busy = 0;
    for byte in &line[..67] {
        if *byte != 0 {
            busy += 1;
        }
    }
    busy
}

// The set places of a line in rising order, or none where there are more than MOST. A line of zeros has no place, and past MOST busy bytes
// places are not looked for: where lines are hurt past repair, most differences have many, and their busy bytes tell so at once.
pub fn set_places<const MOST: usize>(line: [u8; 70]) -> Option<ArrayVec<usize, MOST>>
    ensures { MatchOption result (MOST < length (set_places 0 (places line)))
        (λ few. (few.items ≡ set_places 0 (places line)) × (length few.items ≤ MOST)) }
{
    let mut few = ArrayVec::new();
    if is_zero(line) {
        return Some(few);
    }
    if MOST < busy_bytes(line) {
        return None;
    }
    // A `while`, since a byte of zeros is passed over at one step.
    let mut i = 0;
    while i < 553 {
        if place::is_set(line, i) {
            few.try_push(i).ok()?;
        }
        i = after_place(line, i);
    }
    Some(few)
}
