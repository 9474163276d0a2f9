//! What holds of the definitions alone.

ghost use Rattle.wh_multiplex.specs.Laws.{BytesTellFrames};

/// States that bytes which spell frames spell no others. Does nothing when run: its contract is the law.
pub fn bytes_tell_frames()
    ensures { BytesTellFrames }
{}
