ghost use Rattle.follow_spec.specs.Trace.{HopsAreOfRequests};

/// A trace has the hops of the requests that are named as its own, so it has as many.
#[tactic(auto, using(crate::proofs::Requests::hops_are_of_requests))]
pub fn hops_are_of_requests()
    ensures { HopsAreOfRequests }
{}
