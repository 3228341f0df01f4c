// The form of a store file: its header, opening a file of any bytes, and its bodies. Document 01, "Store file".
#![tactic(auto)]

pub mod bytes;
pub mod header;
pub mod layout;
pub mod opening;
