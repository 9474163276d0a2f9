//! An instance of a host.

use crate::stages::{CallStage, Suspension};
use crate::writing::Cursor;
use std::marker::Model;
use wh_journal::Journal;
use wh_machine::{Machine, Store};

/// An instance of a host: what its calls change but its memory, and the journal of these calls. It is of one module, which
/// is handed in to each call.
///
/// Contracts see its parts.
#[derive(Drop)]
pub struct HostInstance {
    pub(crate) store: Store,
    pub(crate) machine: Machine,
    pub(crate) places: Vec<u32>,
    pub(crate) cursor: Cursor,
    pub(crate) progress: CallStage,
    pub(crate) journal: Journal,
    pub(crate) waiting_for: Option<Suspension>,
    pub(crate) dead: bool,
}

impl Model for HostInstance {
    ghost use Rattle.wh_instance.specs.Tenancy.{HostInstanceState};

    ghost Value = { HostInstanceState };

    ghost use Rattle.wh_instance.specs.Stored.{stored_tenant};

    ghost coded = { stored_tenant };

    ghost view = { λ x. record {
      store = x.store;
      machine = x.machine;
      places = x.places.items;
      cursor = x.cursor;
      progress = x.progress;
      journal = x.journal;
      waiting_for = x.waiting_for;
      dead = x.dead;
    } };
}
