// One visit of a group of lines on a line and a mark buffer, with nothing carried from visit to visit: the group is summed when its sum is
// wanted. Document 01, "Repair".
// Public for the crates that visit single groups, which have tested or made what it asks; not an entry point.
// `mending` has the same four steps with counts and sums carried. One body for both would need a trait over a struct of `&mut` buffers, and
// each contract would then also have to say that the fields are still the caller's: so buffers, parity line and span stay parameters here.
#![tactic(auto)]

ghost use Rattle.std.specs.Prelude.{◌≡◌, ◌/◌, length};
ghost use Rattle.gf2.specs.Word.{◌⊕◌};
ghost use Rattle.linecode.specs.Places.{places};
ghost use Rattle.scheme.specs.Layer.{read_line};
ghost use Rattle.scheme.specs.Visit.{sum, try_lines, settle, trial as trial·, visit};
ghost use Rattle.rectangle.specs.Store.{line_layer, places_at, stride};
ghost use Rattle.groups.specs.Lent.{Inside, faulty_among};
ghost use Rattle.visiting.specs.Lent.{Lent, group_at, Becomes};

use groups::Span;
use linecode::place;
use rectangle::lines;
use single::alone;

// How many lines of a group are faulty.
fn faulty_in_group(marks: &[u8], span: Span) -> usize
    requires { Inside span.first span.step span.count (length marks.now) }
    ensures { result ≡ length (faulty_among marks.now (stride span.first span.step span.count)) }
{
    let mut found = 0;
    for i in 0..span.count {
        if marks[span.line(i)] == 4 {
            found += 1;
        }
    }
    found
}

// The exclusive or of a parity line and of a group's lines as they stand. Its spare bits are those of no line and mean nothing.
fn difference(out: &[u8], parity: [u8; 70], span: Span) -> [u8; 70]
    requires { Inside span.first span.step span.count (length out.now / 70) }
    ensures { places result ≡ sum (places_at out.now) (stride span.first span.step span.count) ⊕ places parity }
{
    let mut sum = parity;
    for i in 0..span.count {
        let next = place::xor_bytes(sum, lines::line_at(out, span.line(i)));
        sum = next;
    }
    sum
}

// Each faulty line of the group in rising order tries each place in rising order: flip it, read the line alone. The first accepted
// trial ends the search for that line. For the same loops in `mending` see there.
fn trial(out: &mut [u8], marks: &mut [u8], span: Span, tries: &[usize])
    requires { Lent out.old marks.old span.first span.step span.count }
    ensures { Becomes (λ s. try_lines (read_line line_layer) tries.now s (stride span.first span.step span.count))
        out.old marks.old out.new marks.new }
{
    for i in 0..span.count {
        let n = span.line(i);
        if marks[n] == 4 {
            let line = lines::line_at(out, n);
            'search: for place in tries {
                let tried = alone::read_line(place::flip_place(line, *place));
                if tried.mark != 4 {
                    lines::put_line(out, n, tried.line);
                    marks[n] = 2;
                    break 'search;
                }
            }
        }
    }
}

// If exactly one line of the group is faulty, it is rebuilt: the group's difference, added to it, leaves the parity line and the others.
#[tactic(auto, using(crate::proofs::Cases::not_rebuilt))]
fn settle_group(out: &mut [u8], marks: &mut [u8], parity: [u8; 70], span: Span)
    requires { Lent out.old marks.old span.first span.step span.count }
    ensures { Becomes (settle (group_at span.first span.step span.count parity))
        out.old marks.old out.new marks.new }
{
    if faulty_in_group(marks, span) != 1 {
        return;
    }
    let Some(n) = groups::first_faulty(marks, span) else {
        return;
    };
    let lack = difference(out, parity, span);
    let rebuilt = place::xor_lines(lines::line_at(out, n), lack);
    lines::put_line(out, n, rebuilt);
    marks[n] = 3;
}

// Where two or more lines are faulty, the difference is the mismatch; if it has 1 to 6 places, the faulty lines try them.
#[tactic(auto, using(crate::proofs::Cases::many_places))]
fn try_group(out: &mut [u8], marks: &mut [u8], parity: [u8; 70], span: Span)
    requires { Lent out.old marks.old span.first span.step span.count }
    ensures { Becomes (trial· (read_line line_layer) (group_at span.first span.step span.count parity))
        out.old marks.old out.new marks.new }
{
    if faulty_in_group(marks, span) < 2 {
        return;
    }
    let Some(tries) = groups::set_places::<6>(difference(out, parity, span)) else {
        return;
    };
    if tries.is_empty() {
        return;
    }
    trial(out, marks, span, tries.as_slice());
}

// A visit: the trials, then the rebuilding. Line n of the buffers is line n of the store.
pub fn visit_group(out: &mut [u8], marks: &mut [u8], parity: [u8; 70], span: Span)
    requires { Lent out.old marks.old span.first span.step span.count }
    ensures { Becomes (visit (read_line line_layer) (group_at span.first span.step span.count parity))
        out.old marks.old out.new marks.new }
{
    try_group(out, marks, parity, span);
    settle_group(out, marks, parity, span);
}
