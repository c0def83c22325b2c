//! A timer expires (RFC 9293, 3.10.8).

ghost use Rattle.std.specs.Prelude.{◌≡◌, Some, IfOk, OnOk, OnErr};
ghost use Rattle.std.specs.List.{All};
ghost use Rattle.std.specs.Result.{result_err};
ghost use Rattle.verdict.specs.Rules.{first_broken};
ghost use Rattle.spec_tcp.specs.HostTcp.{place_of};
ghost use Rattle.spec_tcp.specs.Bounds.{HasRoom};
ghost use Rattle.spec_tcp.specs.Forgetting.{forget_body};
ghost use Rattle.endpoint_state.specs.Kinds.{expired_body, expiring_rules};

use crate::host_tcp::HostTcp;
use case_forms::{Expired, Header, Ports};
use endpoint::admits_expiry;
use verdict::Rule;

impl HostTcp {
    /// The place of the endpoint of these ports whose timer may expire at this moment, in microseconds. The error is
    /// the first broken rule.
    pub(crate) fn admitted_expiry(
        &self,
        header: &Header,
        ports: Ports,
        expired: Expired,
        moment: u64,
    ) -> Result<u32, Rule>
        ensures rule { result_err result ≡ first_broken (expiring_rules header.now moment ports expired self.now) }
        ensures place { IfOk result (λ place. place_of self.now ports.lport ports.rport ≡ Some place) }
    {
        let (place, endpoint) = self.endpoint_on(ports.lport, ports.rport)?;
        admits_expiry(header, moment, endpoint, expired)?;
        Ok(place)
    }

    /// The timer of the endpoint of these ports expires, at a moment in microseconds. The error is the first broken
    /// rule; nothing is changed then.
    #[tactic(auto, using(crate::proofs::BodyLemmas::body_same))]
    pub(crate) fn expire(
        &mut self,
        header: &Header,
        ports: Ports,
        expired: Expired,
        moment: u64,
    ) -> Result<(), Rule>
        requires { All HasRoom self.old.endpoints }
        ensures rule { result_err result ≡ first_broken (expiring_rules header.now moment ports expired self.old) }
        ensures ok { OnOk result (self.new ≡ forget_body (expired_body moment ports expired self.old)) }
        ensures err { OnErr result (self.new ≡ self.old) }
    {
        let place = self.admitted_expiry(header, ports, expired, moment)?;
        self.endpoints.expire(place, expired, moment);
        Ok(())
    }
}
