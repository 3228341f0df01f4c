// Writing a line, and reading one alone (document 000, III-C).
ghost use Rattle.std.specs.Prelude.{◌≡◌, ◌++◌, take};
ghost use Rattle.gf2.specs.Word.{digits, number};
ghost use Rattle.gf2.specs.Check.{crc, column_sum};
ghost use Rattle.gf2.specs.Generator.{generator};
ghost use Rattle.linecode.specs.Places.{bits_of, places, line_of};
ghost use Rattle.linecode.specs.Code.{data_of, positions, codeword, syndrome as syndrome·, is_correct};
ghost use Rattle.linecode.specs.Entry.{reading};
ghost use Rattle.paper_order.specs.PaperOrder.{corrector};

use crate::crc;
use linecode::alone::Reading;
use linecode::hamming::Answer;
use linecode::{hamming, place};

// The data of a line, their CRC and their Hamming bits, which are given as numbers: bytes 64 to 69 are stored as these alone, so that
// nothing that was just stored is read back.
fn with_checks(line: [u8; 70], check: u32, sum: u16) -> [u8; 70]
    requires { (check ≡ number (crc generator (data_of (places line))))
        × (sum ≡ column_sum positions (bits_of (take 64 line) ++ digits 32 check)) }
    ensures { result ≡ line_of (codeword (data_of (places line))) }
{
    let mut whole = line;
    [whole[64], whole[65], whole[66], whole[67]] = check.to_le_bytes();
    [whole[68], whole[69]] = sum.to_le_bytes();
    whole
}

// A line with its CRC and its Hamming bits written afresh from its data.
pub fn rewrite(line: [u8; 70]) -> [u8; 70]
    ensures { result ≡ line_of (codeword (data_of (places line))) }
{
    let worked = crc::of_data(line);
    with_checks(line, worked, wordsums::sum_with(line, worked))
}

// The corrector: the line with the place flipped that its syndrome names; where it names none, the line as it is. Document 01 names let ..
// else as the form for this place.
fn corrected(line: [u8; 70], syndrome: u16) -> [u8; 70]
    requires { syndrome ≡ syndrome· (places line) }
    ensures { places result ≡ corrector (places line) }
{
    let answer = hamming::answer_to(syndrome);
    let Answer::Protected(i) = answer else {
        let Answer::Hamming(k) = answer else {
            return line;
        };
        return place::flip_place(line, 543 + k);
    };
    place::flip_place(line, i)
}

// A line read alone, in the order of section III-C: the CRC from the data, compared with the stored one; where it differs the corrector,
// then CRC and comparison once more. The sum of positions serves a line that matches as its Hamming bits, a hurt one for its syndrome; it
// stands before the first comparison, where LLVM reads the line without a copy. `reading::read` has both sums at once from the lent table,
// writes bits by `with_bits`, and ends where no protected place is named: of one generic body only the shape of three answers would be left.
pub fn read_line(line: [u8; 70]) -> Reading
    ensures { result ≡ reading line }
{
    let worked = crc::of_data(line);
    let sum = wordsums::sum_with(line, linecode::crc::stored(line));
    if crc::matches(line, worked) {
        return Reading {
            line: with_checks(line, worked, sum),
            mark: linecode::alone::mark_of(line, sum),
        };
    }
    let after = corrected(line, sum ^ hamming::stored(line));
    if crc::matches(after, crc::of_data(after)) {
        return Reading {
            line: wordsums::append(after),
            mark: 1,
        };
    }
    Reading {
        line: place::clear_spare(line),
        mark: 4,
    }
}

// Whether the places of a line are what writing its data gives.
pub fn is_correct(line: [u8; 70]) -> bool
    ensures { result ≡ is_correct (places line) }
{
    crc::matches(line, crc::of_data(line)) && wordsums::position_sum(line) == hamming::stored(line)
}
