// One visit of a group of lines on lent buffers: the trials, the rebuilding. Document 01, "Repair".
// Public for `repair`, which has tested or made what it asks; not an entry point.
#![tactic(auto)]

pub mod visit;
