// The trace, as a desk has it.

ghost use Rattle.std.specs.Prelude.{◌≡◌};
ghost use Rattle.wh_desk.specs.Tracing.{trace_from};

use crate::principal::Principal;
use crate::request::{DeskReply, DeskRequest};
use crate::trace::Trace;
use std::marker::Model;
use std::snapshot::Snapshot;
use wh_cell::{CellAgreements, Owner};
use wh_threads::{Agreement, AgreementHalf, AgreementId, BlankAgreement, Change};

// Nothing was replied yet of the host that its owner has left so.
#[derive(Drop)]
struct BeginsAs<D, B: CellAgreements> {
    owner: Snapshot<Owner<D, B>>,
}

impl<D, B: CellAgreements> Change<Trace<D>> for BeginsAs<D, B> {
    ghost use Rattle.wh_desk.specs.Tracing.{trace_from};

    ghost after = { λ c _. trace_from c.owner.value };
}

/// One reply more was given.
#[derive(Drop)]
pub struct Enters<'a, D, B: CellAgreements> {
    pub who: Principal,
    pub asked: Snapshot<DeskRequest<'a>>,
    pub reply: Snapshot<DeskReply>,
    pub at: Snapshot<Owner<D, B>>,
    pub left: Snapshot<Owner<D, B>>,
}

impl<D, B: CellAgreements> Change<Trace<D>> for Enters<'_, D, B> {
    ghost use Rattle.wh_desk.specs.Questions.{question_of};
    ghost use Rattle.wh_desk.specs.Tracing.{entry, with_entry};

    ghost after = { λ c t. with_entry
        (entry c.who (question_of c.asked.value) c.reply.value c.at.value c.left.value) t };
}

/// The trace: an agreed value, of which the desk has both halves.
#[derive(Drop)]
pub struct TraceRecord<D, N: AgreementId> {
    agreement: Agreement<N, Trace<D>>,
    half: AgreementHalf<N, Trace<D>>,
    other: AgreementHalf<N, Trace<D>>,
}

impl<D, N: AgreementId> Model for TraceRecord<D, N> {
    ghost use Rattle.wh_desk.specs.declared.trace.Trace.{Trace};

    ghost Value = { Trace D };

    ghost use Rattle.wh_desk.specs.Stored.{stored_trace};

    ghost coded = { stored_trace D.code };

    ghost view = { λ r. r.half };
}

impl<D, N: AgreementId> TraceRecord<D, N> {
    /// Opens the trace of a host that its owner has left so.
    pub fn open<B: CellAgreements>(
        trace: BlankAgreement<Trace<D>>,
        owner: &Owner<D, B>,
    ) -> TraceRecord<D, N>
        requires { trace ≡ N.table }
        ensures { result ≡ trace_from owner.now }
    {
        let begins = BeginsAs {
            owner: Snapshot::of(owner),
        };
        let (agreement, half, other) = trace.open::<N, BeginsAs<D, B>>(&begins);
        TraceRecord {
            agreement,
            half,
            other,
        }
    }

    /// Changes the trace.
    pub fn change<K: Change<Trace<D>>>(&mut self, by: &K)
        ensures { self.new ≡ K.after by.now self.old }
    {
        self.agreement.settle(&mut self.half, &mut self.other, by);
    }
}
