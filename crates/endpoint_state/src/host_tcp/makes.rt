//! A segment is made (RFC 9293, 3.8 and 3.10).

ghost use Rattle.std.specs.Prelude.{◌≡◌, ◌≤◌, true, Some, is_some, slice_get, IfOk, OnOk, OnErr};
ghost use Rattle.std.specs.List.{All};
ghost use Rattle.std.specs.Option.{option_map};
ghost use Rattle.std.specs.Result.{result_err};
ghost use Rattle.verdict.specs.Rules.{first_broken};
ghost use Rattle.spec_tcp.specs.HostTcp.{place_of, with_endpoint};
ghost use Rattle.spec_tcp.specs.Bounds.{greatest_position, HasRoom, IsSmallEmission};
ghost use Rattle.spec_tcp.specs.Forgetting.{forget_body};
ghost use Rattle.spec_tcp.specs.Machine.{rules_at};
ghost use Rattle.spec_tcp.specs.Makes.{after_making, emission_of, making_rules};

use crate::host_tcp::HostTcp;
use case_forms::{SegmentPlan, Version};
use endpoint::admits_making;
use segment::OutOfMemory;
use spec_tcp::{Emission, EndpointId};
use std::alloc::Global;
use verdict::Rule;

impl HostTcp {
    /// The place of the endpoint that may make this segment, in a text of this version (RFC 9293, 3.8 and 3.10). The
    /// error is the first broken rule.
    pub(crate) fn admitted_making(&self, version: Version, plan: &SegmentPlan) -> Result<u32, Rule>
        requires kept { All HasRoom self.now.endpoints }
        requires small { plan.now.pos ≤ greatest_position }
        ensures rule { result_err result ≡ first_broken
            (rules_at self.now plan.now.lport plan.now.rport (λ e. making_rules version e plan.now)) }
        ensures place { IfOk result (λ place. place_of self.now plan.now.lport plan.now.rport ≡ Some place) }
        ensures there { IfOk result (λ place. is_some (slice_get self.now.endpoints place) ≡ true) }
    {
        let (place, endpoint) = self.endpoint_on(plan.lport, plan.rport)?;
        admits_making(version, endpoint, plan)?;
        Ok(place)
    }

    /// The endpoint with this identity makes a segment, at a moment in microseconds. Without memory, nothing changes.
    #[tactic(auto, using(crate::proofs::BodyLemmas::body_same))]
    pub(crate) fn make_at(
        &mut self,
        alloc: Global,
        me: EndpointId,
        plan: &SegmentPlan,
        moment: u64,
    ) -> Result<Emission, OutOfMemory>
        requires kept { All HasRoom self.old.endpoints }
        requires small { plan.now.pos ≤ greatest_position }
        requires there { is_some (slice_get self.old.endpoints me.number) ≡ true }
        ensures made { IfOk result (λ m. option_map (λ e. emission_of me e plan.now moment)
            (slice_get self.old.endpoints me.number) ≡ Some m) }
        ensures small { IfOk result IsSmallEmission }
        ensures ok { OnOk result (self.new ≡ forget_body
            (with_endpoint self.old me.number (λ e. after_making e plan.now moment))) }
        ensures err { OnErr result (self.new ≡ self.old) }
    {
        self.endpoints.make(alloc, me, plan, moment)
    }
}
