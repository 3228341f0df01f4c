// The register by tables that are compiled in: for a caller that has one line, and no table to lend.
// Public for the crate's other modules; the module is private.
ghost use Rattle.std.specs.Prelude.{◌≡◌, [], ◌∷◌, ◌/◌, ◌%◌, take};
ghost use Rattle.register.specs.Slices.{after};
ghost use Rattle.single.specs.Paired.{Paired};

use slice_table::entry;

// The register after eight bytes, the four of x first, and in the upper half the register when eight more follow that are 0. Each table is
// read at one place of the program, here, so that LLVM puts it there. The bytes of x, which the register waits for, come last, and in the
// order in which LLVM keeps everything in registers.
fn eight(x: u32, a: u8, b: u8, c: u8, d: u8) -> u64
    ensures { Paired result (x % 256 ∷ x / 256 % 256 ∷ x / 65536 % 256 ∷ x / 16777216 % 256 ∷ a ∷ b ∷ c ∷ d ∷ []) }
{
    let [x0, x1, x2, x3] = x.to_le_bytes();
    entry(0, d)
        ^ entry(1, c)
        ^ entry(2, b)
        ^ entry(3, a)
        ^ entry(7, x0)
        ^ entry(6, x1)
        ^ entry(5, x2)
        ^ entry(4, x3)
}

// The register after a line's 64 data bytes. Of sixteen bytes the first eight meet the register, and what they leave
// after eight more is kept; the second eight meet an empty register, so that they need not wait for it.
pub fn after_data(line: [u8; 70]) -> u32
    ensures { result ≡ after 0 (take 64 line) }
{
    let mut r: u32 = 0;
    let mut kept: u32 = 0;
    for k in 0..8 {
        let i = 8 * k;
        let x = r ^ u32::from_le_bytes([line[i], line[i + 1], line[i + 2], line[i + 3]]);
        let n = eight(x, line[i + 4], line[i + 5], line[i + 6], line[i + 7]);
        if k % 2 == 0 {
            kept = (n / 4294967296) as u32;
            r = 0;
        } else {
            r = kept ^ ((n % 4294967296) as u32);
        }
    }
    r
}
