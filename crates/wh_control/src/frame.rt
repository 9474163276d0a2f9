//! Calls that have begun.

ghost use Rattle.std.specs.Prelude.{◌≡◌, ◌<◌, ◌≤◌, List, [], ◌∷◌, length, reverse, IfOk, IfSome, IfNone};
ghost use Rattle.std.specs.Vec.{vec_capacity};
ghost use Rattle.wh_model.specs.Execution.Rules.{call_depth};
ghost use Rattle.wh_control.specs.Stored.{stored_frames};
ghost use Rattle.wh_control.specs.declared.frame.CallFrame.{CallFrame};

use std::alloc::{AllocError, Global};
use std::marker::Model;
use wh_model::CALL_DEPTH;

/// A call of one of the module's own functions: where its words lie and its code goes on.
#[derive(Clone, Copy, Debug, PartialEq, Eq)]
pub struct CallFrame {
    /// The function, counted among those that the module defines.
    pub func: usize,
    /// How many words lie beneath its parameters.
    pub base: usize,
    /// How many words lie beneath its operands: those beneath its parameters, its parameters and its locals.
    pub operands: usize,
    /// The place of the instruction that comes next, or the code's length, which is the end of the function.
    pub place: usize,
}

/// The calls that wait for a result, which contracts see innermost first. Room for as many as there may be is reserved when
/// it is made.
#[derive(Drop)]
pub struct CallStack {
    items: Vec<CallFrame>,
}

impl Model for CallStack {
    ghost Value = { List CallFrame };

    ghost coded = { stored_frames };

    ghost view = { λ f. reverse f.items.items };

    ghost invariant = { λ f. call_depth ≤ vec_capacity f.items };
}

impl CallStack {
    /// Creates an empty stack of calls. Reserves the room for all `CALL_DEPTH` of them.
    ///
    /// # Errors
    /// `AllocError` if the allocation fails.
    pub fn reserve(alloc: Global) -> Result<CallStack, AllocError>
        ensures { IfOk result (λ frames. frames ≡ []) }
    {
        let items = Vec::with_capacity(alloc, CALL_DEPTH)?;
        Ok(CallStack { items })
    }

    /// Returns the number of waiting calls.
    #[inline(always)]
    pub fn len(&self) -> usize
        ensures { result ≡ length self.now }
    {
        self.items.len()
    }

    /// Removes all calls.
    #[inline(always)]
    pub fn clear(&mut self)
        ensures { self.new ≡ [] }
    {
        self.items.truncate(0);
    }

    /// Pushes a call, which waits from now on.
    #[inline(always)]
    pub fn push(&mut self, frame: CallFrame)
        requires { length self.old < call_depth }
        ensures { self.new ≡ frame ∷ self.old }
    {
        self.items.push_reserved(frame);
    }

    /// Pops the innermost call.
    #[inline(always)]
    pub fn pop(&mut self) -> Option<CallFrame>
        ensures some { IfSome result (λ frame. self.old ≡ frame ∷ self.new) }
        ensures none { IfNone result ((self.old ≡ []) × (self.new ≡ [])) }
    {
        self.items.pop()
    }
}
