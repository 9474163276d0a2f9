//! The types of operands, as far as they are known.

ghost use Rattle.std.specs.Prelude.{◌≡◌, ◌<◌, reverse};
ghost use Rattle.wh_bodies.specs.Known.{known, same_type, take_one, take_any, give_one, fall, take_all, give_all, pass, agreed, selected};
ghost use Rattle.wh_bodies.specs.BodyFaults.{Checks, Yields};

use wh_model::{MOST_HEIGHT, ValType, ValidKind};

/// The types of the operands of a function, where `None` is a type that isn't known. Those above `floor` belong to the
/// innermost sequence; where it is dead, any operands may lie between them and the floor.
#[derive(Drop)]
pub struct Operands {
    pub types: Vec<Option<ValType>>,
    pub floor: usize,
    pub dead: bool,
}

/// Tells whether two types are the same.
#[inline(always)]
pub fn same_type(found: ValType, wanted: ValType) -> bool
    ensures { result ≡ same_type found wanted }
{
    match (found, wanted) {
        (ValType::I32, ValType::I32) => true,
        (ValType::I64, ValType::I64) => true,
        _ => false,
    }
}

/// Takes the topmost operand, whatever its type, and returns the type, if it is known.
///
/// # Errors
/// `Arity` if there is none.
#[inline(always)]
pub fn take_any(operands: &mut Operands) -> Result<Option<ValType>, ValidKind>
    ensures { Yields result (known operands.new) (take_any (known operands.old)) }
{
    if operands.floor < operands.types.len() {
        return match operands.types.pop() {
            Some(found) => Ok(found),
            None => Err(ValidKind::Arity),
        };
    }
    if operands.dead {
        Ok(None)
    } else {
        Err(ValidKind::Arity)
    }
}

/// Takes an operand of this type.
///
/// # Errors
/// `Arity` if there is none; `BadType` if it has another type.
#[inline(always)]
pub fn take(operands: &mut Operands, wanted: ValType) -> Result<(), ValidKind>
    ensures { Checks result (known operands.new) (take_one (known operands.old) wanted) }
{
    match take_any(operands)? {
        None => Ok(()),
        Some(found) => {
            if same_type(found, wanted) {
                Ok(())
            } else {
                Err(ValidKind::BadType)
            }
        }
    }
}

/// Gives an operand of this type, where `None` is a type that isn't known.
///
/// # Errors
/// `Height` if there are more than 256 operands then; `Memory` if an allocation fails.
#[inline(always)]
pub fn give(operands: &mut Operands, of: Option<ValType>) -> Result<(), ValidKind>
    ensures { Checks result (known operands.new) (give_one (known operands.old) of) }
{
    if operands.types.len() < MOST_HEIGHT {
        operands.types.push(of)?;
        Ok(())
    } else {
        Err(ValidKind::Height)
    }
}

/// Makes the operands those of code that is never reached.
pub fn fall(operands: &mut Operands)
    ensures { known operands.new ≡ fall (known operands.old) }
{
    operands.types.truncate(operands.floor);
    operands.dead = true;
}

/// Takes operands of these types, the last one topmost.
#[inline(always)]
pub fn take_all(operands: &mut Operands, wanted: &[ValType]) -> Result<(), ValidKind>
    ensures { Checks result (known operands.new)
        (take_all (known operands.old) (reverse wanted.now)) }
{
    let mut left = wanted.len();
    'left: while left > 0 {
        // Whatever is taken then changes nothing, so that calls in dead code cost no more than others.
        if operands.dead && operands.floor >= operands.types.len() {
            return Ok(());
        }
        left -= 1;
        take(operands, wanted[left])?;
    }
    Ok(())
}

/// Gives operands of these types, the last one topmost.
#[inline(always)]
pub fn give_all(operands: &mut Operands, types: &[ValType]) -> Result<(), ValidKind>
    ensures { Checks result (known operands.new) (give_all (known operands.old) types.now) }
{
    for &of in types {
        give(operands, Some(of))?;
    }
    Ok(())
}

/// Takes operands of the first types and gives operands of the others, the last ones topmost.
#[inline(always)]
pub fn pass(
    operands: &mut Operands,
    params: &[ValType],
    results: &[ValType],
) -> Result<(), ValidKind>
    ensures { Checks result (known operands.new)
        (pass (known operands.old) params.now results.now) }
{
    take_all(operands, params)?;
    give_all(operands, results)
}

/// The type that both are, as far as they are known.
fn agreed(first: Option<ValType>, second: Option<ValType>) -> Result<Option<ValType>, ValidKind>
    ensures { result ≡ agreed first second }
{
    match (first, second) {
        (None, other) => Ok(other),
        (Some(_), None) => Ok(first),
        (Some(found), Some(wanted)) => {
            if same_type(found, wanted) {
                Ok(first)
            } else {
                Err(ValidKind::BadType)
            }
        }
    }
}

/// Checks a `select` (3.3.2): takes a condition and two operands of one type, and gives one of this type.
///
/// # Errors
/// `Arity` or `BadType` if an operand is missing or of another type; `Height` if there are more than 256 operands then;
/// `Memory` if an allocation fails.
pub fn select(operands: &mut Operands) -> Result<(), ValidKind>
    ensures { Checks result (known operands.new) (selected (known operands.old)) }
{
    take(operands, ValType::I32)?;
    let first = take_any(operands)?;
    let second = take_any(operands)?;
    let of = agreed(first, second)?;
    give(operands, of)
}
