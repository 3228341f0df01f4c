// One line at a time: written from 64 data bytes, read alone. Document 01, "One line, 70 bytes". The CRC's tables are compiled in, so
// that a single line pays for none. They are large to load at a check, so what needs them stands apart from the line code below.
#![tactic(auto)]

pub mod alone;
mod crc;
mod tables;
