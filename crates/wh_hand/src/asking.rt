//! What owners ask of the calls of their instances.

ghost use Rattle.std.specs.Prelude.{◌≡◌, OnErr, OnOk};
ghost use Rattle.wh_host.specs.Backing.{KeepsBacking};

use crate::hand::Hand;
use crate::line::settle;
use wh_host::CallRequest;

impl Hand {
    /// Asks something about the calls of one instance, as `Host` itself would be asked: for a call, which `run` runs
    /// after the open ones, or for more fuel for the present one, its end, or another try.
    ///
    /// # Errors
    /// Those of the request. The host is as it was then.
    pub fn ask<Q: CallRequest>(&mut self, request: Q) -> Result<Q::Answer, Q::Error>
        ensures asks { Q.asks request self.old.host result self.new.host }
        ensures err { OnErr result (self.new ≡ self.old) }
        ensures backing { KeepsBacking self.old.host.space self.new.host.space }
        ensures output { self.new.output ≡ self.old.output }
        ensures counts { OnOk result
            (self.new.host.counts ≡ Q.counted request self.old.host self.new.host) }
    {
        let id = request.id();
        let stands = self.host.can_go_on(id);
        let answer = request.ask(&mut self.host);
        settle(&mut self.line, &self.host, id, stands);
        answer
    }
}
