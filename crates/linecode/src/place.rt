// The places of a line in its 70 bytes: spare bits, exclusive or, a place turned over.
ghost use Rattle.std.specs.Prelude.{false, cond, nat_lt, ◌≡◌, ◌+◌, ◌<◌, get_or};
ghost use Rattle.gf2.specs.Word.{◌⊕◌, flip};
ghost use Rattle.linecode.specs.Places.{places, line_of, loaded, xor_bytes};

// The first 70 bytes of a slice, zeros where it is shorter.
pub fn load(s: &[u8]) -> [u8; 70]
    ensures { result ≡ loaded s.now }
{
    let n = s.len().min(70);
    let mut line = [0u8; 70];
    line[..n].copy_from_slice(&s[..n]);
    line
}

// The line with its spare bits 0.
pub fn clear_spare(line: [u8; 70]) -> [u8; 70]
    ensures { result ≡ line_of (places line) }
{
    let mut cleared = line;
    cleared[67] %= 128;
    cleared[69] %= 4;
    cleared
}

// The exclusive or of two lines, byte by byte: spare bits too, so that for lines whose spare bits are 0 it is all that is wanted.
pub fn xor_bytes(a: [u8; 70], b: [u8; 70]) -> [u8; 70]
    ensures { result ≡ xor_bytes a b }
{
    let mut sum = a;
    for i in 0..70 {
        sum[i] ^= b[i];
    }
    sum
}

// The exclusive or of two lines, spare bits 0.
pub fn xor_lines(a: [u8; 70], b: [u8; 70]) -> [u8; 70]
    ensures { result ≡ line_of (places a ⊕ places b) }
{
    clear_spare(xor_bytes(a, b))
}

// The bit of a line's bytes at which place i stands: bit 543 is spare, so that the Hamming bits begin with a byte.
fn bit_of(i: usize) -> usize
    requires { i < 553 }
    ensures { result ≡ cond (nat_lt i 543) i (i + 1) }
{
    if i < 543 { i } else { i + 1 }
}

// Whether place i is set; past the last place none is.
pub fn is_set(line: [u8; 70], i: usize) -> bool
    ensures { result ≡ get_or (places line) i false }
{
    if i < 553 {
        let bit = bit_of(i);
        return (line[bit / 8] >> (bit % 8)) % 2 == 1;
    }
    false
}

// The line with place i turned over, spare bits 0; past the last place nothing is turned.
pub fn flip_place(line: [u8; 70], i: usize) -> [u8; 70]
    ensures { result ≡ line_of (flip i (places line)) }
{
    let mut flipped = line;
    if i < 553 {
        let bit = bit_of(i);
        flipped[bit / 8] ^= 1 << (bit % 8);
    }
    clear_spare(flipped)
}
