//! What holds of the definitions alone.

ghost use Rattle.wasmhost_program.specs.Laws.{LinesAreRead};

/// States examples of lines that are accepted, with what they ask for, and of lines that aren't. Does nothing when run:
/// its contract is the examples.
pub fn lines_are_read()
    ensures { LinesAreRead }
{}
