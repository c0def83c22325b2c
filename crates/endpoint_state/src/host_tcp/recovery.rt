//! Fast recovery begins (RFC 5681, 3.2), or is undone (RFC 4015, 3.2).

ghost use Rattle.std.specs.Prelude.{◌≡◌, Some, IfOk, OnOk, OnErr};
ghost use Rattle.std.specs.List.{All};
ghost use Rattle.std.specs.Result.{result_err};
ghost use Rattle.verdict.specs.Rules.{first_broken};
ghost use Rattle.spec_tcp.specs.HostTcp.{place_of};
ghost use Rattle.spec_tcp.specs.Bounds.{HasRoom};
ghost use Rattle.spec_tcp.specs.Forgetting.{forget_body};
ghost use Rattle.endpoint_state.specs.Kinds.{recovered_body, recovering_rules};

use crate::host_tcp::HostTcp;
use case_forms::{Recovery, Version};
use endpoint::admits_recovery;
use verdict::Rule;

impl HostTcp {
    /// The place of the endpoint where fast recovery may begin, or be undone. The error is the first broken rule.
    pub(crate) fn admitted_recovery(
        &self,
        version: Version,
        recovery: Recovery,
        moment: u64,
    ) -> Result<u32, Rule>
        ensures rule { result_err result ≡ first_broken (recovering_rules version moment recovery self.now) }
        ensures place { IfOk result (λ place. place_of self.now recovery.lport recovery.rport ≡ Some place) }
    {
        let (place, endpoint) = self.endpoint_on(recovery.lport, recovery.rport)?;
        admits_recovery(
            version,
            endpoint,
            recovery.change,
            recovery.cwnd,
            recovery.ssthresh,
            moment,
        )?;
        Ok(place)
    }

    /// Fast recovery begins, or is undone. The error is the first broken rule; nothing is changed then.
    #[tactic(auto, using(crate::proofs::BodyLemmas::body_same))]
    pub(crate) fn recover(
        &mut self,
        version: Version,
        recovery: Recovery,
        moment: u64,
    ) -> Result<(), Rule>
        requires { All HasRoom self.old.endpoints }
        ensures rule { result_err result ≡ first_broken (recovering_rules version moment recovery self.old) }
        ensures ok { OnOk result (self.new ≡ forget_body (recovered_body moment recovery self.old)) }
        ensures err { OnErr result (self.new ≡ self.old) }
    {
        let place = self.admitted_recovery(version, recovery, moment)?;
        self.endpoints.recover(
            place,
            recovery.change,
            recovery.cwnd,
            recovery.ssthresh,
            moment,
        );
        Ok(())
    }
}
