//! Expressions: instructions up to their end.

ghost use Rattle.std.specs.Prelude.{◌≡◌, map};
ghost use Rattle.std.specs.List.{AllByRecursion};
ghost use Rattle.wh_model.specs.Format.Syntax.{Code, expression};
ghost use Rattle.wh_model.specs.Focus.Nested.{nested};
ghost use Rattle.wh_syntax.specs.Shown.{instr_of, InPool};
ghost use Rattle.wh_syntax.specs.Stored.{stored_code};

use crate::instr::Instr;
use std::marker::Model;

/// An expression (2.4.6), which contracts see in its nested form: a sequence of instructions in which the constructs
/// that blocks, loops and ifs open are closed.
#[derive(Drop)]
pub struct Expr {
    instrs: Vec<Instr>,
    labels: Vec<u32>,
}

impl Model for Expr {
    ghost Value = { Code };

    ghost coded = { stored_code };

    ghost view = { λ e. nested (map (instr_of e.labels.items) e.instrs.items) };

    ghost invariant = { λ e. (map (instr_of e.labels.items) e.instrs.items
        ≡ expression (nested (map (instr_of e.labels.items) e.instrs.items)))
        × AllByRecursion (InPool e.labels.items) e.instrs.items };
}

/// The instructions of an expression in binary order, the last one its end, and the pool of the labels of its
/// `br_table`s.
#[derive(Clone, Copy)]
pub struct Flat<'a> {
    /// The instructions.
    pub instrs: &'a [Instr],
    /// The labels that `BrTable` names by their places.
    pub labels: &'a [u32],
}

impl Expr {
    /// Creates an expression from its instructions, which have to be those of a nested form, and the pool of labels.
    pub fn new(instrs: Vec<Instr>, labels: Vec<u32>) -> Expr
        requires nests { map (instr_of labels.items) instrs.items
            ≡ expression (nested (map (instr_of labels.items) instrs.items)) }
        requires in_pool { AllByRecursion (InPool labels.items) instrs.items }
        ensures { result ≡ nested (map (instr_of labels.items) instrs.items) }
    {
        Expr { instrs, labels }
    }

    /// Returns the instructions in binary order, and the pool of labels.
    pub fn flat(&self) -> Flat<'_>
        ensures instrs { map (instr_of result.labels.now) result.instrs.now ≡ expression self.now }
        ensures in_pool { AllByRecursion (InPool result.labels.now) result.instrs.now }
    {
        Flat {
            instrs: &self.instrs,
            labels: &self.labels,
        }
    }
}
