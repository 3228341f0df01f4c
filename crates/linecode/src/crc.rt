// The CRC that a line holds. Public for the crate `single`, which works the CRC out of the data and compares.
ghost use Rattle.std.specs.Prelude.{◌≡◌};
ghost use Rattle.gf2.specs.Word.{number};
ghost use Rattle.linecode.specs.Places.{places};
ghost use Rattle.linecode.specs.Code.{stored_crc};

// The CRC that a line holds.
pub fn stored(line: [u8; 70]) -> u32
    ensures { result ≡ number (stored_crc (places line)) }
{
    u32::from_le_bytes([line[64], line[65], line[66], line[67] % 128])
}
