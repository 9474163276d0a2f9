// Whose each module and each instance is.

ghost use Rattle.std.specs.Prelude.{◌≡◌, IfOk};
ghost use Rattle.std.specs.Bool.{MatchBool};
ghost use Rattle.wh_desk.specs.Bounded.{HasRoomToOwn};
ghost use Rattle.wh_desk.specs.Permits.{IsModuleOf, IsTenants, MayAdmit, MayAsk, Permits, nothing_owned, owner_of, ownership_of, refusal};
ghost use Rattle.wh_desk.specs.Questions.{question_of};

use crate::error::{DeskReadError, ExportsError};
use crate::principal::Principal;
use crate::request::{DeskReply, DeskRequest};
use std::alloc::{AllocError, Global};
use wh_admit::MOST_INSTANCES;
use wh_host::{AdmitError, ForkError, HostError, MOST_MODULES, ModuleId, ReadError, UnloadError};
use wh_space_model::InstId;

/// A module that is there, and whose it is: whoever's asked for it.
#[derive(Clone, Copy, Debug, PartialEq, Eq)]
pub struct OwnedModule {
    /// The module.
    pub id: ModuleId,
    /// Whose it is.
    pub owner: Principal,
}

/// An instance that is there, and whose it is: whoever's asked for it; or, of a copy, whose the instance is that was copied.
#[derive(Clone, Copy, Debug, PartialEq, Eq)]
pub struct OwnedInstance {
    /// The instance.
    pub id: InstId,
    /// Whose it is.
    pub owner: Principal,
}

/// Knows whose each module and each instance is.
#[derive(Drop)]
pub struct Ownership {
    pub modules: Vec<OwnedModule>,
    pub instances: Vec<OwnedInstance>,
}

impl Ownership {
    /// Returns a table in which nobody has anything. Takes all memory that it will ever need.
    ///
    /// # Errors
    /// Where room was refused.
    pub fn new(alloc: Global) -> Result<Ownership, AllocError>
        ensures nothing { IfOk result (λ o. ownership_of o ≡ nothing_owned) }
        ensures room { IfOk result HasRoomToOwn }
    {
        Ok(Ownership {
            modules: Vec::with_capacity(alloc, MOST_MODULES)?,
            instances: Vec::with_capacity(alloc, MOST_INSTANCES)?,
        })
    }

    // Whether an instance is this tenant's.
    fn is_tenants(&self, t: u32, id: InstId) -> bool
        ensures { MatchBool result (IsTenants (ownership_of self.now) t id) (¬ (IsTenants (ownership_of self.now) t id)) }
    {
        let owner = Principal::Tenant(t);
        self.instances.contains(&OwnedInstance { id, owner })
    }

    // Whether a module is whoever's this is.
    fn is_module_of(&self, who: Principal, of: ModuleId) -> bool
        ensures { MatchBool result (IsModuleOf (ownership_of self.now) who of) (¬ (IsModuleOf (ownership_of self.now) who of)) }
    {
        self.modules.contains(&OwnedModule { id: of, owner: who })
    }

    // Whether a tenant may ask for instances of a module.
    fn may_admit(&self, t: u32, of: ModuleId) -> bool
        ensures { MatchBool result (MayAdmit (ownership_of self.now) t of) (¬ (MayAdmit (ownership_of self.now) t of)) }
    {
        self.is_module_of(Principal::Tenant(t), of) || self.is_module_of(Principal::Operator, of)
    }

    // Whether a tenant may ask this.
    fn may_ask(&self, t: u32, request: &DeskRequest<'_>) -> bool
        ensures { MatchBool result (MayAsk (ownership_of self.now) t (question_of request.now))
            (¬ (MayAsk (ownership_of self.now) t (question_of request.now))) }
    {
        match request {
            DeskRequest::Load { .. } => true,
            DeskRequest::Unload { of } => self.is_module_of(Principal::Tenant(t), *of),
            DeskRequest::Admit { of, .. } => self.may_admit(t, *of),
            DeskRequest::Fork { id, .. } => self.is_tenants(t, *id),
            DeskRequest::Invoke { id, .. } => self.is_tenants(t, *id),
            DeskRequest::InvokeAt { id, .. } => self.is_tenants(t, *id),
            DeskRequest::Refuel { id, .. } => self.is_tenants(t, *id),
            DeskRequest::Cancel { id } => self.is_tenants(t, *id),
            DeskRequest::Retry { id } => self.is_tenants(t, *id),
            DeskRequest::Release { id } => self.is_tenants(t, *id),
            DeskRequest::BeginEpoch => false,
            DeskRequest::Status { id, .. } => self.is_tenants(t, *id),
            DeskRequest::Report | DeskRequest::Usage => false,
            DeskRequest::UsageOf { id } => self.is_tenants(t, *id),
            DeskRequest::Transcript { id } => self.is_tenants(t, *id),
            DeskRequest::Output { id, .. } => self.is_tenants(t, *id),
            DeskRequest::Ends { id, .. } => self.is_tenants(t, *id),
            DeskRequest::Exports { of } => self.may_admit(t, *of),
            DeskRequest::Read { id, .. } => self.is_tenants(t, *id),
        }
    }

    /// Returns whether somebody may ask this.
    pub fn permits(&self, who: Principal, request: &DeskRequest<'_>) -> bool
        ensures { MatchBool result (Permits (ownership_of self.now) who (question_of request.now))
            (¬ (Permits (ownership_of self.now) who (question_of request.now))) }
    {
        match who {
            Principal::Operator => true,
            Principal::Tenant(t) => self.may_ask(t, request),
        }
    }

    /// Returns whose an instance is; the operator, where it is nobody's.
    pub fn owner_of(&self, id: InstId) -> Principal
        ensures { result ≡ owner_of id (ownership_of self.now).instances }
    {
        for owned in self.instances.iter() {
            if owned.id.number == id.number {
                return owned.owner;
            }
        }
        Principal::Operator
    }
}

/// Returns what is replied to who may not ask this.
pub fn refuse(request: &DeskRequest<'_>) -> DeskReply
    ensures { result ≡ refusal (question_of request.now) }
{
    let none = HostError::NoInstance;
    match request {
        DeskRequest::Load { .. }
        | DeskRequest::BeginEpoch
        | DeskRequest::Report
        | DeskRequest::Usage => DeskReply::NotAllowed,
        DeskRequest::Unload { .. } => DeskReply::Unloaded(Err(UnloadError::NoModule)),
        DeskRequest::Admit { .. } => DeskReply::Admitted(Err(AdmitError::NoModule)),
        DeskRequest::Fork { .. } => DeskReply::Forked(Err(ForkError::NoInstance)),
        DeskRequest::Invoke { .. } | DeskRequest::InvokeAt { .. } => DeskReply::Invoked(Err(none)),
        DeskRequest::Refuel { .. } => DeskReply::Done(Err(none)),
        DeskRequest::Cancel { .. } | DeskRequest::Retry { .. } => DeskReply::Done(Err(none)),
        DeskRequest::Release { .. } => DeskReply::Released(Err(none)),
        DeskRequest::Status { .. } => DeskReply::Status(None),
        DeskRequest::UsageOf { .. } => DeskReply::UsageOf(Err(none)),
        DeskRequest::Transcript { .. } => DeskReply::Transcript(Err(none)),
        DeskRequest::Output { .. } => DeskReply::Output(Err(none)),
        DeskRequest::Ends { .. } => DeskReply::Ends(Err(none)),
        DeskRequest::Exports { .. } => DeskReply::Exports(Err(ExportsError::NoModule)),
        DeskRequest::Read { .. } => DeskReply::Read(Err(DeskReadError::Host(
            ReadError::NoInstance,
        ))),
    }
}
