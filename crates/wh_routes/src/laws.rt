//! Laws of the definitions alone.

ghost use Rattle.wh_routes.specs.Laws.{NamesOnce};

/// States that a path names at most one resource. Does nothing when run: its contract is the law.
pub fn one_resource()
    ensures { NamesOnce }
{}
