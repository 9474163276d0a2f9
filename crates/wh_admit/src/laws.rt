//! What holds of the definitions.

ghost use Rattle.wh_admit.specs.RepresentedHost.{RepresentsSome};

/// States that whatever an admission is given represents some host, so that its clauses say something of every one.
/// Does nothing when run: its contract is the law.
pub fn standing_holds()
    ensures { RepresentsSome }
{}
