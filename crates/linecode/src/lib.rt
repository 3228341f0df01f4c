// One line of 70 bytes: its places, its Hamming bits, the CRC that it holds. The crate `single` writes and reads whole lines by them.
// Document 01, "One line, 70 bytes".
#![tactic(auto)]

pub mod alone;
pub mod crc;
pub mod hamming;
pub mod place;
