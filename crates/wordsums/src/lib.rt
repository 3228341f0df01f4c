// The sum of the positions of a line's set places, by words of 64 bits: the Hamming bits of a single line, for which no table is lent.
#![tactic(auto)]

mod words;

ghost use Rattle.std.specs.Prelude.{◌≡◌, ◌++◌, ◌*◌, ◌/◌, ◌%◌, ◌^◌, ◌<◌, take, replicate, get_or};
ghost use Rattle.std.specs.Int.Bits.{bit_and, bit_xor};
ghost use Rattle.gf2.specs.Word.{digits};
ghost use Rattle.gf2.specs.Check.{column_sum};
ghost use Rattle.linecode.specs.Places.{places, line_of, bits_of};
ghost use Rattle.linecode.specs.Code.{protected, positions, up_from, with_hamming};

use linecode::hamming::with_bits;

// A word with its upper bits, brought down by some places, added to the lower ones; of the sum a mask is kept.
fn folded(x: u64, by: u32, mask: u64) -> u64
    requires { by < 64 }
    ensures { result ≡ bit_and (bit_xor x (x / 2 ^ by)) mask }
{
    (x ^ (x >> by)) & mask
}

// A word with the bits of a mask, found some places higher, added. The others stay: a later sum wants them.
fn added(x: u64, by: u32, mask: u64) -> u64
    requires { by < 64 }
    ensures { result ≡ bit_xor x (bit_and (x / 2 ^ by) mask) }
{
    x ^ ((x >> by) & mask)
}

// Two words folded into one: the first down into the bits of `low`, the second up into those of `high`.
fn paired(a: u64, b: u64, by: u32, low: u64, high: u64) -> u64
    requires { by < 64 }
    ensures { result ≡ bit_xor (bit_and (bit_xor a (a / 2 ^ by)) low) (bit_and (bit_xor b (b * 2 ^ by % 2 ^ 64)) high) }
{
    ((a ^ (a >> by)) & low) ^ ((b ^ (b << by)) & high)
}

// The exclusive or of the numbers 0 to 63 of the set bits of `all`, and of 64 for each set bit of b6, 128 for b7, 256 for b8
// and 512 for b9. So bit k is a parity of some bits: ten parities, folded side by side to ten nibbles, and these to ten bits.
fn number_sum(all: u64, b6: u64, b7: u64, b8: u64, b9: u64) -> u64
    ensures { result ≡ column_sum (up_from 0 64 ++ (replicate 64 64 ++ (replicate 64 128 ++ (replicate 64 256 ++ replicate 64 512)))) (digits 64 all ++ (digits 64 b6 ++ (digits 64 b7 ++ (digits 64 b8 ++ digits 64 b9)))) }
{
    let x = paired(b6, b8, 32, 0xffffffff, 0xffffffff00000000);
    let y = paired(b7, b9, 32, 0xffffffff, 0xffffffff00000000);
    let z = paired(x, y, 16, 0x0000ffff0000ffff, 0xffff0000ffff0000);
    let nibbles = folded(folded(z, 8, 0x00ff00ff00ff00ff), 4, 0x000f000f000f000f);
    let high = folded(folded(nibbles, 12, 0xff000000ff), 24, 0xffff);
    let s = added(added(all, 32, 0xffffffff), 16, 0x0000ffff0000ffff);
    let low = added(added(s, 8, 0x00ff00ff00ff00ff), 4, 0x0f0f0f0f0f);
    let n = (low & 0xa)
        ^ ((low & 0xc) << 4)
        ^ ((low & 0xff0) << 4)
        ^ (low & 0xf0000)
        ^ ((low >> 12) & 0xf00000)
        ^ (high << 24);
    let parities = folded(folded(n, 2, 0x3333333333), 1, 0x1111111111);
    let fives = folded(folded(parities, 3, 0x0303030303), 6, 0x3000f000f);
    folded(folded(fives, 12, 0x3000000ff), 24, 0x3ff)
}

// The exclusive or of the positions of the set places, from the data as eight words, and the CRC with a spare bit above it.
// Between two powers of two a run of places is moved as a whole, so that bit i of word q is the place of position 64 q + i.
// Then bits 6 to 9 of a position are those of q, and bits 0 to 5 are i, for which all words count as one.
fn hamming_bits(data: &[u64; 8], c: u32) -> u64
    ensures { result ≡ column_sum positions (digits 64 (get_or data.now 0 0) ++ (digits 64 (get_or data.now 1 0) ++ (digits 64 (get_or data.now 2 0) ++ (digits 64 (get_or data.now 3 0) ++ (digits 64 (get_or data.now 4 0) ++ (digits 64 (get_or data.now 5 0) ++ (digits 64 (get_or data.now 6 0) ++ (digits 64 (get_or data.now 7 0) ++ digits 32 c)))))))) }
{
    let [d0, d1, d2, d3, d4, d5, d6, d7] = *data;
    let p0 = ((d0 & 0x1) << 3)
        ^ ((d0 & 0xe) << 4)
        ^ ((d0 & 0x7f0) << 5)
        ^ ((d0 & 0x3fff800) << 6)
        ^ ((d0 & 0x1fffffffc000000) << 7);
    let p1 = ((d0 >> 56) ^ (d1 << 8)) & 0xfffffffffffffffe;
    let p2 = ((d1 >> 55) ^ (d2 << 9)) & 0xfffffffffffffffe;
    let p3 = (d2 >> 55) ^ (d3 << 9);
    let p4 = ((d3 >> 54) ^ (d4 << 10)) & 0xfffffffffffffffe;
    let p5 = (d4 >> 54) ^ (d5 << 10);
    let p6 = (d5 >> 54) ^ (d6 << 10);
    let p7 = (d6 >> 54) ^ (d7 << 10);
    let p8 = ((d7 >> 53) ^ ((c as u64) << 11)) & 0x3fffffffffe;
    let all = p0 ^ p1 ^ p2 ^ p3 ^ p4 ^ p5 ^ p6 ^ p7 ^ p8;
    let b6 = p1 ^ p3 ^ p5 ^ p7;
    let b7 = p2 ^ p3 ^ p6 ^ p7;
    let b8 = p4 ^ p5 ^ p6 ^ p7;
    number_sum(all, b6, b7, b8, p8)
}

// The exclusive or of the positions of the places that are set in the data of a line and in a CRC, given as a number: where the CRC has
// just been worked out, it need not be stored and read back.
pub fn sum_with(line: [u8; 70], crc: u32) -> u16
    ensures { result ≡ column_sum positions (bits_of (take 64 line) ++ digits 32 crc) }
{
    let data = [
        words::word_at(line, 0),
        words::word_at(line, 8),
        words::word_at(line, 16),
        words::word_at(line, 24),
        words::word_at(line, 32),
        words::word_at(line, 40),
        words::word_at(line, 48),
        words::word_at(line, 56),
    ];
    hamming_bits(&data, crc) as u16
}

// The exclusive or of the positions of the set protected places: the Hamming bits, bit 0 lowest.
pub fn position_sum(line: [u8; 70]) -> u16
    ensures { result ≡ column_sum positions (protected (places line)) }
{
    sum_with(line, words::half_at(line, 64))
}

// The protected places with their Hamming bits written afresh, spare bits 0.
pub fn append(line: [u8; 70]) -> [u8; 70]
    ensures { result ≡ line_of (with_hamming (protected (places line))) }
{
    with_bits(line, position_sum(line))
}
