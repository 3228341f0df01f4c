// Numbers in bytes, little-endian, and bytes put into a buffer. Public for the crate's other modules and the crate `report`, not entry
// points: each function asks that its bytes lie inside the slice, as of an index, which the entry points have tested. Slice and place are no
// struct: with a `&mut` in it, each contract would also have to say that it is still the caller's slice.
ghost use Rattle.std.specs.Prelude.{◌≡◌, ◌+◌, ◌≤◌, length};
ghost use Rattle.storefile.specs.Bytes.{little_endian, number_at, placed, Put};

// The number in two bytes, and in four: two functions, since `from_le_bytes` belongs to no trait.
pub fn two_bytes(file: &[u8], at: usize) -> u16
    requires { at + 2 ≤ length file.now }
    ensures { result ≡ number_at file.now at 2 }
{
    u16::from_le_bytes([file[at], file[at + 1]])
}

pub fn four_bytes(file: &[u8], at: usize) -> u32
    requires { at + 4 ≤ length file.now }
    ensures { result ≡ number_at file.now at 4 }
{
    u32::from_le_bytes([file[at], file[at + 1], file[at + 2], file[at + 3]])
}

// The N low bytes of a number, put from a place on.
pub fn put_number<const N: usize>(out: &mut [u8], at: usize, n: usize)
    requires few { N ≤ 8 }
    requires room { at + N ≤ length out.old }
    ensures { out.new ≡ placed out.old at (little_endian N n) }
{
    out[at..at + N].copy_from_slice(&n.to_le_bytes()[..N]);
}

// Some bytes, put from a place on; returns the place after them.
pub fn put_bytes(out: &mut [u8], at: usize, bytes: &[u8]) -> usize
    requires { at + length bytes.now ≤ length out.old }
    ensures { Put out.old at bytes.now out.new result }
{
    let end = at + bytes.len();
    out[at..end].copy_from_slice(bytes);
    end
}
