// Bytes of a line as a word, the first byte lowest: two functions, since `from_le_bytes` belongs to no trait.
// Public for the crate's other module; the module itself is private.
ghost use Rattle.std.specs.Prelude.{◌≡◌, ◌<◌, take, drop};
ghost use Rattle.gf2.specs.Word.{number};
ghost use Rattle.linecode.specs.Places.{bits_of};

// The four bytes of a line from byte i on.
pub fn half_at(line: [u8; 70], i: usize) -> u32
    requires { i < 67 }
    ensures { result ≡ number (bits_of (take 4 (drop i line))) }
{
    u32::from_le_bytes(*line[i..i + 4].as_array().unwrap())
}

// The eight bytes of a line from byte i on.
pub fn word_at(line: [u8; 70], i: usize) -> u64
    requires { i < 63 }
    ensures { result ≡ number (bits_of (take 8 (drop i line))) }
{
    u64::from_le_bytes(*line[i..i + 8].as_array().unwrap())
}
