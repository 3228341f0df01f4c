// What reading a line alone gives (document 000, III-C), which the definitions name, and the mark of an accepted line. The functions that
// read stand above, in the crates `single` and `reading`.
ghost use Rattle.std.specs.Prelude.{◌≡◌};
ghost use Rattle.gf2.specs.Check.{column_sum};
ghost use Rattle.linecode.specs.Places.{places};
ghost use Rattle.linecode.specs.Code.{protected, positions, with_hamming};
ghost use Rattle.linecode.specs.Reading.{mark_of};

use crate::hamming;

// A line as it reads alone, and its mark: 0 correct as found, 1 accepted and rewritten somewhere, 4 faulty. A mark is a byte, and no enum:
// C reads it, and the definitions and theorems name the number.
#[derive(Clone, Copy, PartialEq, Eq)]
pub struct Reading {
    pub line: [u8; 70],
    pub mark: u8,
}

// The mark of a line whose protected word is divisible, with the sum of its positions: 0 where it holds these Hamming bits, and otherwise
// 1, since they are changed. Public for the crates that read.
pub fn mark_of(line: [u8; 70], sum: u16) -> u8
    requires { sum ≡ column_sum positions (protected (places line)) }
    ensures { result ≡ mark_of (places line) (with_hamming (protected (places line))) }
{
    if hamming::stored(line) == sum { 0 } else { 1 }
}
