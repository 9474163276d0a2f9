//! Laws of the definitions alone.

ghost use Rattle.wh_commands.specs.Laws.{AsksOnce};

/// States that a line asks for at most one command. Does nothing when run: its contract is the law.
pub fn one_command()
    ensures { AsksOnce }
{}
