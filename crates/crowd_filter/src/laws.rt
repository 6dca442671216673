//! What a step of a crowd means, in the reader's words. The calls do nothing; a proof that has a step cites what they ensure.

ghost use Rattle.crowd_filter.specs.CrowdSteps.{AllWalkRight, ComeNoNearer, StayApart};
ghost use Rattle.crowd_filter.specs.Runs.{DoHeldStay, DoRunsKeep};

use fine_walk::stays;

/// Two agents that are apart when a step begins are apart at every moment of it, and after it.
pub fn stay_apart()
    ensures { StayApart }
{}

/// Two agents that overlap when a step begins come at no moment of it nearer than they are.
pub fn no_nearer()
    ensures { ComeNoNearer }
{}

/// Each agent goes straight, on the mesh, link by link, no farther than its speed, and is then in the polygon that it names; who is stranded stands.
pub fn on_mesh()
    ensures { AllWalkRight }
{
    stays();
}

/// An agent that is held in a mesh is not placed elsewhere in it. So agents that are held and apart are so after any number of steps over one mesh,
/// whatever is wished.
pub fn runs()
    ensures held { DoHeldStay }
    ensures keep { DoRunsKeep }
{
    stays();
}
