//! A law of the definitions alone.

ghost use Rattle.std.specs.Prelude.{◌≡◌};
ghost use Rattle.wh_model.specs.Format.Syntax.{Module};
ghost use Rattle.wh_model.specs.Validity.Typing.{Context};
ghost use Rattle.wh_model.specs.Validity.Valid.{IsContext};

/// States that a module has at most one context. Does nothing when run: its contract is the law.
pub fn one_context()
    ensures { (m : Module) (c d : Context) → IsContext m c → IsContext m d → c ≡ d }
{}
