//! What a byte encodes where an instruction begins.

ghost use Rattle.std.specs.Prelude.{◌≡◌, ◌<◌};
ghost use Rattle.wh_model.specs.Format.Opcodes.{operator_from, control_opcode, variable_opcode, memory_opcode, single_opcode, numeric_opcode, opcode, is_float_opcode};

use wh_model::{
    BinaryOp, CompareOp, ConvertOp, FaultKind, LoadOp, Opcode, StoreOp, TestOp, UnaryOp, ValType,
};

const FULL_LOADS: [LoadOp; 2] = [LoadOp::I32Load, LoadOp::I64Load];

const NARROW_LOADS: [LoadOp; 10] = [
    LoadOp::I32Load8S,
    LoadOp::I32Load8U,
    LoadOp::I32Load16S,
    LoadOp::I32Load16U,
    LoadOp::I64Load8S,
    LoadOp::I64Load8U,
    LoadOp::I64Load16S,
    LoadOp::I64Load16U,
    LoadOp::I64Load32S,
    LoadOp::I64Load32U,
];

const FULL_STORES: [StoreOp; 2] = [StoreOp::I32Store, StoreOp::I64Store];

const NARROW_STORES: [StoreOp; 5] = [
    StoreOp::I32Store8,
    StoreOp::I32Store16,
    StoreOp::I64Store8,
    StoreOp::I64Store16,
    StoreOp::I64Store32,
];

const COMPARISONS: [CompareOp; 10] = [
    CompareOp::Eq,
    CompareOp::Ne,
    CompareOp::LtS,
    CompareOp::LtU,
    CompareOp::GtS,
    CompareOp::GtU,
    CompareOp::LeS,
    CompareOp::LeU,
    CompareOp::GeS,
    CompareOp::GeU,
];

const UNARY_OPERATORS: [UnaryOp; 3] = [UnaryOp::Clz, UnaryOp::Ctz, UnaryOp::Popcnt];

const EXTENSIONS_I32: [UnaryOp; 2] = [UnaryOp::Extend8S, UnaryOp::Extend16S];

const EXTENSIONS_I64: [UnaryOp; 3] = [UnaryOp::Extend8S, UnaryOp::Extend16S, UnaryOp::Extend32S];

const BINARY_OPERATORS: [BinaryOp; 15] = [
    BinaryOp::Add,
    BinaryOp::Sub,
    BinaryOp::Mul,
    BinaryOp::DivS,
    BinaryOp::DivU,
    BinaryOp::RemS,
    BinaryOp::RemU,
    BinaryOp::And,
    BinaryOp::Or,
    BinaryOp::Xor,
    BinaryOp::Shl,
    BinaryOp::ShrS,
    BinaryOp::ShrU,
    BinaryOp::Rotl,
    BinaryOp::Rotr,
];

#[inline(always)]
fn control(byte: u8) -> Option<Opcode>
    ensures { result ≡ control_opcode byte }
{
    match byte {
        0x00 => Some(Opcode::Unreachable),
        0x01 => Some(Opcode::Nop),
        0x02 => Some(Opcode::Block),
        0x03 => Some(Opcode::Loop),
        0x04 => Some(Opcode::If),
        0x05 => Some(Opcode::Else),
        0x0b => Some(Opcode::End),
        0x0c => Some(Opcode::Br),
        0x0d => Some(Opcode::BrIf),
        0x0e => Some(Opcode::BrTable),
        0x0f => Some(Opcode::Return),
        0x10 => Some(Opcode::Call),
        0x11 => Some(Opcode::CallIndirect),
        0x1a => Some(Opcode::Drop),
        0x1b => Some(Opcode::Select),
        _ => None,
    }
}

#[inline(always)]
fn variable(byte: u8) -> Option<Opcode>
    ensures { result ≡ variable_opcode byte }
{
    match byte {
        0x20 => Some(Opcode::LocalGet),
        0x21 => Some(Opcode::LocalSet),
        0x22 => Some(Opcode::LocalTee),
        0x23 => Some(Opcode::GlobalGet),
        0x24 => Some(Opcode::GlobalSet),
        0x3f => Some(Opcode::MemorySize),
        0x40 => Some(Opcode::MemoryGrow),
        0x41 => Some(Opcode::I32Const),
        0x42 => Some(Opcode::I64Const),
        _ => None,
    }
}

/// The operator that an opcode encodes, where `first` is the opcode of the first one.
#[inline(always)]
fn operator_from<T: Copy>(first: u8, operators: &[T], byte: u8) -> Option<T>
    ensures { result ≡ operator_from first operators.now byte }
{
    if byte < first {
        return None;
    }
    operators.get(usize::from(byte - first)).copied()
}

#[inline(always)]
fn memory(byte: u8) -> Option<Opcode>
    ensures { result ≡ memory_opcode byte }
{
    if let Some(op) = operator_from(0x28, &FULL_LOADS, byte) {
        return Some(Opcode::Load(op));
    }
    if let Some(op) = operator_from(0x2c, &NARROW_LOADS, byte) {
        return Some(Opcode::Load(op));
    }
    if let Some(op) = operator_from(0x36, &FULL_STORES, byte) {
        return Some(Opcode::Store(op));
    }
    if let Some(op) = operator_from(0x3a, &NARROW_STORES, byte) {
        return Some(Opcode::Store(op));
    }
    None
}

#[inline(always)]
fn single(byte: u8) -> Option<Opcode>
    ensures { result ≡ single_opcode byte }
{
    match byte {
        0x45 => Some(Opcode::Test(ValType::I32, TestOp::Eqz)),
        0x50 => Some(Opcode::Test(ValType::I64, TestOp::Eqz)),
        0xa7 => Some(Opcode::Convert(ConvertOp::WrapI64)),
        0xac => Some(Opcode::Convert(ConvertOp::ExtendI32S)),
        0xad => Some(Opcode::Convert(ConvertOp::ExtendI32U)),
        _ => None,
    }
}

#[inline(always)]
fn numeric(byte: u8) -> Option<Opcode>
    ensures { result ≡ numeric_opcode byte }
{
    if let Some(op) = operator_from(0x46, &COMPARISONS, byte) {
        return Some(Opcode::Compare(ValType::I32, op));
    }
    if let Some(op) = operator_from(0x51, &COMPARISONS, byte) {
        return Some(Opcode::Compare(ValType::I64, op));
    }
    if let Some(op) = operator_from(0x67, &UNARY_OPERATORS, byte) {
        return Some(Opcode::Unary(ValType::I32, op));
    }
    if let Some(op) = operator_from(0x6a, &BINARY_OPERATORS, byte) {
        return Some(Opcode::Binary(ValType::I32, op));
    }
    if let Some(op) = operator_from(0x79, &UNARY_OPERATORS, byte) {
        return Some(Opcode::Unary(ValType::I64, op));
    }
    if let Some(op) = operator_from(0x7c, &BINARY_OPERATORS, byte) {
        return Some(Opcode::Binary(ValType::I64, op));
    }
    if let Some(op) = operator_from(0xc0, &EXTENSIONS_I32, byte) {
        return Some(Opcode::Unary(ValType::I32, op));
    }
    if let Some(op) = operator_from(0xc2, &EXTENSIONS_I64, byte) {
        return Some(Opcode::Unary(ValType::I64, op));
    }
    None
}

fn is_float(byte: u8) -> bool
    ensures { result ≡ is_float_opcode byte }
{
    matches!(
        byte,
        0x2a..=0x2b
            | 0x38..=0x39
            | 0x43..=0x44
            | 0x5b..=0x66
            | 0x8b..=0xa6
            | 0xa8..=0xab
            | 0xae..=0xbf
    )
}

/// Returns the opcode that this byte is.
///
/// # Errors
/// `Float` if it is one of floating point, else `UnknownByte`.
#[inline(always)]
#[tactic(auto, unfolding(wh_model::specs::Format::Opcodes::opcode))]
pub fn opcode_of(byte: u8) -> Result<Opcode, FaultKind>
    ensures { result ≡ opcode byte }
{
    if let Some(opcode) = control(byte) {
        return Ok(opcode);
    }
    if let Some(opcode) = variable(byte) {
        return Ok(opcode);
    }
    if let Some(opcode) = memory(byte) {
        return Ok(opcode);
    }
    if let Some(opcode) = single(byte) {
        return Ok(opcode);
    }
    if let Some(opcode) = numeric(byte) {
        return Ok(opcode);
    }
    if is_float(byte) {
        Err(FaultKind::Float)
    } else {
        Err(FaultKind::UnknownByte)
    }
}
