// The CRC of a line's data, by the tables that are compiled in. Public for the crate's other modules; the module
// is private.
ghost use Rattle.std.specs.Prelude.{◌≡◌};
ghost use Rattle.gf2.specs.Word.{number};
ghost use Rattle.gf2.specs.Check.{crc};
ghost use Rattle.gf2.specs.Generator.{generator};
ghost use Rattle.linecode.specs.Places.{places};
ghost use Rattle.linecode.specs.Code.{data_of};
ghost use Rattle.paper_order.specs.PaperOrder.{crc_matches};

use crate::tables;
use linecode::crc::stored;

// The CRC of a line's data.
pub fn of_data(line: [u8; 70]) -> u32
    ensures { result ≡ number (crc generator (data_of (places line))) }
{
    tables::after_data(line)
}

// The comparison of section III-C: whether the CRC of a line's data, as worked out, is the stored one.
pub fn matches(line: [u8; 70], worked: u32) -> bool
    requires { worked ≡ number (crc generator (data_of (places line))) }
    ensures { result ≡ crc_matches (places line) }
{
    worked == stored(line)
}
