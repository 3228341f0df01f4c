// Reading a line alone where many are read: both sums of a line come from the lent table (document 000, III-C). Public for the crates
// above, which bind the table once.
#![tactic(auto)]

ghost use Rattle.std.specs.Prelude.{◌≡◌, true, false};
ghost use Rattle.gf2.specs.Check.{column_sum};
ghost use Rattle.linecode.specs.Places.{places};
ghost use Rattle.linecode.specs.Code.{protected, positions};
ghost use Rattle.linecode.specs.Entry.{reading};
ghost use Rattle.paper_order.specs.PaperOrder.{crc_matches};
ghost use Rattle.sweep.specs.Sums.{both_sums};

use line_table::LineTable;
use linecode::alone::Reading;
use linecode::hamming::Answer;
use linecode::{alone, hamming, place};
use sweep::sums_of;

// A line whose CRC does not match, with the sum of its positions: the corrector, then CRC and comparison once more. Where no protected
// place is named, data and CRC stay as they are, and the second comparison would end as the first did.
fn read_hurt(table: &LineTable, line: [u8; 70], sum: u16) -> Reading
    requires hurt { crc_matches (places line) ≡ false }
    requires summed { sum ≡ column_sum positions (protected (places line)) }
    ensures { result ≡ reading line }
{
    let Answer::Protected(i) = hamming::answer_to(sum ^ hamming::stored(line)) else {
        return Reading {
            line: place::clear_spare(line),
            mark: 4,
        };
    };
    let flipped = place::flip_place(line, i);
    let again = sums_of(table, flipped);
    let matched = again < 65536;
    if matched {
        return Reading {
            line: hamming::with_bits(flipped, (again % 65536) as u16),
            mark: 1,
        };
    }
    Reading {
        line: place::clear_spare(line),
        mark: 4,
    }
}

// A line whose sums are known, read alone: its CRC matches, or else the corrector. For the flag above the sum see `sweep::sums_in`. Line and
// sums are no struct: sums are made of eight lines at a time, which stay in their buffer, and a struct would hold a copy of its line.
pub fn read_summed(table: &LineTable, line: [u8; 70], sums: u32) -> Reading
    requires { sums ≡ both_sums (places line) }
    ensures { result ≡ reading line }
{
    if sums < 65536 {
        let sum = sums as u16;
        return Reading {
            line: hamming::with_bits(line, sum),
            mark: alone::mark_of(line, sum),
        };
    }
    read_hurt(table, line, (sums - 65536) as u16)
}

// A line read alone.
pub fn read(table: &LineTable, line: [u8; 70]) -> Reading
    ensures { result ≡ reading line }
{
    read_summed(table, line, sums_of(table, line))
}

// Whether a line whose sums are known is correct as found and has its spare bits 0: it then reads alone as it stands, with mark 0.
// Nearly every line does, and then it is copied whole: bytes stored over the copy would make the processor wait.
pub fn is_untouched(line: [u8; 70], sums: u32) -> bool
    requires { sums ≡ both_sums (places line) }
    ensures { result ≡ true → reading line ≡ record { line = line; mark = 0 } }
{
    let clear = line[67] < 128;
    clear && sums == u32::from(u16::from_le_bytes([line[68], line[69]]))
}
