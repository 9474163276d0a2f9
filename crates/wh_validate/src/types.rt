//! Function types (3.2.3).

ghost use Rattle.std.specs.Prelude.{◌≡◌, ◌<◌, IfErr};
ghost use Rattle.std.specs.List.{All};
ghost use Rattle.wh_model.specs.Validity.Valid.{ValidType};
ghost use Rattle.wh_syntax.specs.View.{view_type};
ghost use Rattle.wh_validate.specs.Deciding.{Decides};

use wh_model::ValidKind;
use wh_syntax::FuncType;

/// Checks that each function type has at most one result (3.2.3).
///
/// # Errors
/// `Limits` if one has more.
pub fn check_types(types: &[FuncType]) -> Result<(), ValidKind>
    ensures decides { Decides result (All (λ t. ValidType (view_type t)) types.now) }
    ensures err { IfErr result (λ k. k ≡ ValidKind.Limits) }
{
    for func_type in types {
        if func_type.results.len() > 1 {
            return Err(ValidKind::Limits);
        }
    }
    Ok(())
}
