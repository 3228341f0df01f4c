// The lines as the pattern has them. Request Q-6: "one byte for each line (0 whole, anything else faulty)".
// Public for the crate's other modules; the module is private, and what its functions ask, `forecast` has tested or made.
ghost use Rattle.std.specs.Prelude.{◌≡◌, map, length};
ghost use Rattle.peeling.specs.Lent.{mark_of};

// The mark that a byte gives: itself a byte, as C reads it.
fn mark_of(byte: u8) -> u8
    ensures { result ≡ mark_of byte }
{
    if byte == 0 { 0 } else { 4 }
}

// Every line gets its mark. Nothing else is done here, so that the compiler marks many lines at a step.
pub fn mark_lines(pattern: &[u8], marks: &mut [u8])
    requires { length marks.old ≡ length pattern.now }
    ensures { marks.new ≡ map mark_of pattern.now }
{
    // By index: of a mark that `iter_mut` lends to a `zip` the check does not know where it stands.
    for (n, byte) in pattern.iter().enumerate() {
        marks[n] = mark_of(*byte);
    }
}
