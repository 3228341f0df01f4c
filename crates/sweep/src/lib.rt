// Many lines: both sums of a line, for its CRC and for its Hamming bits, from one table that the entry point lends.
// Public for the crates above, which bind the table once; what these functions ask, their entry points have made.
#![tactic(auto)]

ghost use Rattle.std.specs.Prelude.{◌≡◌, List, [], ◌∷◌, ◌++◌, ℕ, ◌+◌, ◌*◌, ◌/◌, ◌%◌, ◌^◌, ◌≤◌, ◌<◌, length, take, drop, get_or};
ghost use Rattle.std.specs.Int.Bits.{bit_xor};
ghost use Rattle.gf2.specs.Word.{digits};
ghost use Rattle.gf2.specs.Check.{column_sum};
ghost use Rattle.register.specs.Slices.{after};
ghost use Rattle.linecode.specs.Places.{places};
ghost use Rattle.line_table.specs.Table.{fields};
ghost use Rattle.sweep.specs.Sums.{Summed, at_first, at_second, at_third, at_fourth, at_last, line_at, both_sums};

use line_table::LineTable;

// The entries of sixteen bytes, added: the last byte's come first in the table.
fn block(table: &LineTable, bytes: [u8; 16]) -> u64
    ensures { Summed bytes result }
{
    let mut sum = 0;
    for k in 0..16 {
        sum ^= table.entries[256 * k + bytes[15 - k] as usize];
    }
    sum
}

// The four blocks of a line's data.
fn blocks(table: &LineTable, line: &[u8; 70]) -> [u64; 4]
    ensures { (k : ℕ) → k < 4 → Summed (take 16 (drop (16 * k) line.now)) (get_or result k 0) }
{
    let mut sums = [0; 4];
    for k in 0..4 {
        sums[k] = block(table, *line[16 * k..16 * k + 16].as_array().unwrap());
    }
    sums
}

// The register's half of a sum.
fn low(n: u64) -> u32
    ensures { result ≡ n % 2 ^ 32 }
{
    (n % 4294967296) as u32
}

// What a register becomes over sixteen bytes, and the fields of its bits as those of the first four bytes.
fn carried(table: &LineTable, r: u32) -> u64
    ensures { (r < 2 ^ 31 → (bs : List ℕ) → length bs ≡ 16 → after r bs ≡ bit_xor (after 0 bs) (result % 2 ^ 32))
        × (result / 2 ^ 32 ≡ column_sum fields (digits 32 r)) }
{
    let [r0, r1, r2, r3] = r.to_le_bytes();
    table.entries[3072 + r3 as usize]
        ^ table.entries[3328 + r2 as usize]
        ^ table.entries[3584 + r1 as usize]
        ^ table.entries[3840 + r0 as usize]
}

// The register after all four blocks.
fn crc_of(table: &LineTable, sums: [u64; 4]) -> u32
    ensures { (b0 b1 b2 b3 : List ℕ) → length b1 ≡ 16 → length b2 ≡ 16 → length b3 ≡ 16
        → Summed b0 (get_or sums 0 0) → Summed b1 (get_or sums 1 0) → Summed b2 (get_or sums 2 0) → Summed b3 (get_or sums 3 0)
        → result ≡ after 0 (((b0 ++ b1) ++ b2) ++ b3) }
{
    let [a0, a1, a2, a3] = sums;
    let r1 = carried(table, low(a0)) ^ a1;
    let r2 = carried(table, low(r1)) ^ a2;
    low(carried(table, low(r2)) ^ a3)
}

// The sum of positions, from the fields of the four blocks and of the CRC.
fn positions_from(sums: [u64; 4], carried: u64) -> u64
    ensures { result
        ≡ bit_xor (at_first (get_or sums 0 0 / 2 ^ 32)) (bit_xor (at_second (get_or sums 1 0 / 2 ^ 32)) (bit_xor (at_third (get_or sums 2 0 / 2 ^ 32)) (bit_xor (at_fourth (get_or sums 3 0 / 2 ^ 32)) (at_last (carried / 2 ^ 32))))) }
{
    let [x0, x1, x2, x3] = [sums[0] >> 32, sums[1] >> 32, sums[2] >> 32, sums[3] >> 32];
    let c = carried >> 32;
    let fourth = ((x3 >> 17) & 511)
        ^ ((x3 >> 18) & 128)
        ^ ((x3 >> 26) & 15)
        ^ ((x3 >> 22) & 256)
        ^ ((x3 >> 21) & 512);
    let last = ((c >> 17) & 255) ^ ((c >> 16) & 512);
    (x0 & 255) ^ (((x1 >> 8) & 511) ^ (((x2 >> 17) & 511) ^ (fourth ^ last)))
}

// Both sums of a line that stands in a buffer, with the comparison of section III-C: whether the CRC of the data is the stored one. The
// line's bytes are read there, and not copied. The flag stands above the sum in one number, as the definition `both_sums` has it, which the
// theorems name: a lent piece's eight sums are then eight numbers.
fn sums_in(table: &LineTable, line: &[u8; 70]) -> u32
    ensures { result ≡ both_sums (places line.now) }
{
    let sums = blocks(table, line);
    let stored = u32::from_le_bytes([line[64], line[65], line[66], line[67] % 128]);
    let c = carried(table, 2 * stored);
    let positions = positions_from(sums, c) as u32;
    let crc = crc_of(table, sums);
    positions + 65536 * u32::from(crc != stored)
}

// Both sums of so many lines of a buffer, at most eight, from line n on. All lines that are read with the lent table pass here: so the loop
// is the one place that sums a line, and LLVM puts the sum into it. Eight numbers always: who gave the count takes so many of them.
pub fn sums_of_lines(table: &LineTable, buffer: &[u8], n: usize, count: usize) -> [u32; 8]
    requires { (count ≤ 8) × ((n + count) * 70 ≤ length buffer.now) }
    ensures { (i : ℕ) → i < count → get_or result i 0 ≡ both_sums (places (line_at buffer.now (n + i))) }
{
    let mut sums = [0; 8];
    for i in 0..count {
        let at = (n + i) * 70;
        sums[i] = sums_in(table, buffer[at..at + 70].as_array().unwrap());
    }
    sums
}

// Both sums of a line. Public for `reading`, which reads single lines and looks again after a flip.
pub fn sums_of(table: &LineTable, line: [u8; 70]) -> u32
    ensures { result ≡ both_sums (places line) }
{
    sums_of_lines(table, &line, 0, 1)[0]
}
