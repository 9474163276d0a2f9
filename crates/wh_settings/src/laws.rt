//! Laws of the definitions alone.

ghost use Rattle.wh_settings.specs.Laws.{SpellsOnce};

/// States that a document spells settings in at most one way. Does nothing when run: its contract is the law.
pub fn one_reading()
    ensures { SpellsOnce }
{}
