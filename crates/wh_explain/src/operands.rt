//! The types of the operands at each instruction of a function, as far as they are known, up to a fault.

use crate::indexed::{function_type, global_type};
use std::alloc::{AllocError, Global};
use wh_model::{ConvertOp, LoadOp, StoreOp, ValType};
use wh_syntax::{Body, FuncType, Instr, Module};

/// The type of an operand; none where it isn't known, as in code that isn't reached.
pub type Known = Option<ValType>;

/// What stands around the instructions of a function.
#[derive(Clone, Copy)]
pub struct Surroundings<'a> {
    /// The module.
    pub module: &'a Module,
    /// The type of the function.
    pub func_type: &'a FuncType,
    /// The function's body.
    pub body: &'a Body,
}

impl Surroundings<'_> {
    /// Finds the type of a local.
    fn local(&self, index: u32) -> Known {
        let params = self.func_type.params.as_slice();
        let index = index as usize;
        match index.checked_sub(params.len()) {
            None => params.get(index).copied(),
            Some(at) => self.body.locals.as_slice().get(at).copied(),
        }
    }

    /// Finds the type of a global.
    fn global(&self, index: u32) -> Known {
        Some(global_type(self.module, index)?.value)
    }

    /// Finds the type of what a function of this type gives.
    fn result_of(func_type: Option<&FuncType>) -> Known {
        func_type?.results.as_slice().first().copied()
    }
}

/// A construct that is open, or the body itself.
#[derive(Clone, Copy)]
pub struct Construct {
    /// What its end leaves, if anything.
    pub leaves: Option<ValType>,
    /// What a branch to it takes along, if anything.
    pub carries: Option<ValType>,
    /// Whether it is an if whose else hasn't come.
    pub is_then: bool,
    /// How many operands lie beneath it.
    floor: usize,
}

/// The operands before an instruction, and the constructs that are open there, the innermost last.
#[derive(Drop)]
pub struct TypeStack {
    operands: Vec<Known>,
    constructs: Vec<Construct>,
}

/// The type that is loaded.
fn loaded(op: LoadOp) -> ValType {
    match op {
        LoadOp::I32Load
        | LoadOp::I32Load8S
        | LoadOp::I32Load8U
        | LoadOp::I32Load16S
        | LoadOp::I32Load16U => ValType::I32,
        _ => ValType::I64,
    }
}

/// The type that is stored.
fn stored(op: StoreOp) -> ValType {
    match op {
        StoreOp::I32Store | StoreOp::I32Store8 | StoreOp::I32Store16 => ValType::I32,
        _ => ValType::I64,
    }
}

/// The types that a conversion takes and gives.
fn converted(op: ConvertOp) -> (ValType, ValType) {
    match op {
        ConvertOp::WrapI64 => (ValType::I64, ValType::I32),
        ConvertOp::ExtendI32S | ConvertOp::ExtendI32U => (ValType::I32, ValType::I64),
    }
}

/// Puts types into a list, and others after them.
pub fn joined(
    alloc: Global,
    first: &[ValType],
    second: &[ValType],
) -> Result<Vec<Known>, AllocError> {
    let mut types = Vec::new(alloc);
    for of in first {
        types.push(Some(*of))?;
    }
    for of in second {
        types.push(Some(*of))?;
    }
    Ok(types)
}

impl TypeStack {
    /// Is what stands before the first instruction of a function.
    fn at_start(alloc: Global, around: Surroundings<'_>) -> Result<TypeStack, AllocError> {
        let result = Surroundings::result_of(Some(around.func_type));
        let mut constructs = Vec::new(alloc);
        constructs.push(Construct {
            leaves: result,
            carries: result,
            is_then: false,
            floor: 0,
        })?;
        Ok(TypeStack {
            operands: Vec::new(alloc),
            constructs,
        })
    }

    /// Counts the labels that may be named.
    pub fn label_count(&self) -> usize {
        self.constructs.len()
    }

    /// Finds the construct that a label names, the innermost being 0.
    pub fn construct(&self, label: u32) -> Option<Construct> {
        let above = self.constructs.len().checked_sub(label as usize)?;
        self.constructs.get(above.checked_sub(1)?).copied()
    }

    /// How many operands lie beneath the innermost construct.
    fn floor(&self) -> usize {
        match self.construct(0) {
            Some(construct) => construct.floor,
            None => 0,
        }
    }

    /// Gives the operands of the innermost construct.
    pub fn own_operands(&self) -> &[Known] {
        self.operands.get(self.floor()..).unwrap_or(&[])
    }

    /// What the label of a branch carries, as a list.
    fn carried(&self, label: u32) -> Option<ValType> {
        self.construct(label)?.carries
    }

    /// The types that an instruction takes that is about control.
    fn taken_by_control(
        &self,
        alloc: Global,
        around: Surroundings<'_>,
        instr: Instr,
    ) -> Result<Vec<Known>, AllocError> {
        let condition = [ValType::I32];
        let (first, second): (Option<ValType>, &[ValType]) = match instr {
            Instr::If(_) => (None, &condition),
            Instr::Else | Instr::End => (self.construct(0).and_then(|c| c.leaves), &[]),
            Instr::Br(label) => (self.carried(label), &[]),
            Instr::BrIf(label) => (self.carried(label), &condition),
            Instr::BrTable { first, count } => {
                let labels = around.body.code.flat().labels;
                let last = (first as usize).saturating_add(count as usize);
                let carries = labels.get(last).and_then(|label| self.carried(*label));
                (carries, &condition)
            }
            Instr::Return => (Surroundings::result_of(Some(around.func_type)), &[]),
            _ => (None, &[]),
        };
        match first {
            Some(of) => joined(alloc, &[of], second),
            None => joined(alloc, &[], second),
        }
    }

    /// The types that a call takes of a function of this type, and after them these.
    fn taken_by_call(
        alloc: Global,
        func_type: Option<&FuncType>,
        further: &[ValType],
    ) -> Result<Vec<Known>, AllocError> {
        match func_type {
            Some(func_type) => joined(alloc, func_type.params.as_slice(), further),
            None => joined(alloc, &[], further),
        }
    }

    /// The type of the operand that is `beneath` places beneath the topmost one.
    fn operand(&self, beneath: usize) -> Known {
        let own = self.own_operands();
        let above = own.len().checked_sub(beneath)?;
        own.get(above.checked_sub(1)?).copied()?
    }

    /// Gives the types that an instruction takes, the last one topmost.
    pub fn taken(
        &self,
        alloc: Global,
        around: Surroundings<'_>,
        instr: Instr,
    ) -> Result<Vec<Known>, AllocError> {
        match instr {
            Instr::Call(index) => {
                TypeStack::taken_by_call(alloc, function_type(around.module, index), &[])
            }
            Instr::CallIndirect(index) => TypeStack::taken_by_call(
                alloc,
                around.module.types.get(index as usize),
                &[ValType::I32],
            ),
            Instr::Drop => Vec::from_slice(alloc, &[None]),
            Instr::Select => {
                let of = self.operand(1).or(self.operand(2));
                Vec::from_slice(alloc, &[of, of, Some(ValType::I32)])
            }
            Instr::LocalSet(index) | Instr::LocalTee(index) => {
                Vec::from_slice(alloc, &[around.local(index)])
            }
            Instr::GlobalSet(index) => Vec::from_slice(alloc, &[around.global(index)]),
            Instr::Load { .. } | Instr::MemoryGrow => joined(alloc, &[ValType::I32], &[]),
            Instr::Store { op, .. } => joined(alloc, &[ValType::I32], &[stored(op)]),
            Instr::Test(of, _) | Instr::Unary(of, _) => joined(alloc, &[of], &[]),
            Instr::Compare(of, _) | Instr::Binary(of, _) => joined(alloc, &[of], &[of]),
            Instr::Convert(op) => joined(alloc, &[converted(op).0], &[]),
            _ => self.taken_by_control(alloc, around, instr),
        }
    }

    /// The type that an instruction gives, which may not be known; none where it gives nothing.
    fn given(&self, around: Surroundings<'_>, instr: Instr) -> Option<Known> {
        match instr {
            Instr::I32Const(_) | Instr::MemorySize | Instr::MemoryGrow => Some(Some(ValType::I32)),
            Instr::Test(_, _) | Instr::Compare(_, _) => Some(Some(ValType::I32)),
            Instr::I64Const(_) => Some(Some(ValType::I64)),
            Instr::Unary(of, _) | Instr::Binary(of, _) => Some(Some(of)),
            Instr::Convert(op) => Some(Some(converted(op).1)),
            Instr::Load { op, .. } => Some(Some(loaded(op))),
            Instr::LocalGet(index) | Instr::LocalTee(index) => Some(around.local(index)),
            Instr::GlobalGet(index) => Some(around.global(index)),
            Instr::Select => Some(self.operand(1).or(self.operand(2))),
            Instr::Call(index) => {
                Surroundings::result_of(function_type(around.module, index)).map(Some)
            }
            Instr::CallIndirect(index) => {
                Surroundings::result_of(around.module.types.get(index as usize)).map(Some)
            }
            Instr::BrIf(label) => self.carried(label).map(Some),
            Instr::End => self.construct(0)?.leaves.map(Some),
            _ => None,
        }
    }

    /// Opens a construct.
    fn open(
        &mut self,
        leaves: Option<ValType>,
        carries: Option<ValType>,
        is_then: bool,
    ) -> Result<(), AllocError> {
        let floor = self.operands.len();
        self.constructs.push(Construct {
            leaves,
            carries,
            is_then,
            floor,
        })?;
        Ok(())
    }

    /// Goes from the first part of an if to the second one.
    fn turn(&mut self) -> Result<(), AllocError> {
        if let Some(construct) = self.constructs.pop() {
            self.constructs.push(Construct {
                is_then: false,
                ..construct
            })?;
        }
        Ok(())
    }

    /// Passes an instruction that is valid.
    fn pass(
        &mut self,
        alloc: Global,
        around: Surroundings<'_>,
        instr: Instr,
    ) -> Result<(), AllocError> {
        let count = self.taken(alloc, around, instr)?.len();
        let given = self.given(around, instr);
        let floor = self.floor();
        let left = self.operands.len().saturating_sub(count);
        self.operands.truncate(left.max(floor));
        match instr {
            Instr::Block(of) => self.open(of, of, false)?,
            Instr::Loop(of) => self.open(of, None, false)?,
            Instr::If(of) => self.open(of, of, true)?,
            Instr::Else => self.turn()?,
            Instr::End => {
                self.constructs.pop();
            }
            Instr::Unreachable | Instr::Return | Instr::Br(_) | Instr::BrTable { .. } => {
                self.operands.truncate(floor);
            }
            _ => {}
        }
        if let Some(of) = given {
            self.operands.push(of)?;
        }
        Ok(())
    }

    /// Finds what stands before an instruction of a function, all those before it being valid.
    pub fn before(
        alloc: Global,
        around: Surroundings<'_>,
        instruction: u32,
    ) -> Result<TypeStack, AllocError> {
        let mut stack = TypeStack::at_start(alloc, around)?;
        let instrs = around.body.code.flat().instrs;
        for instr in instrs.iter().take(instruction as usize) {
            stack.pass(alloc, around, *instr)?;
        }
        Ok(stack)
    }
}
