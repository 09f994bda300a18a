// The demands. The one function does nothing: it promises the claims, so that no check passes without their proofs.
#![tactic(auto)]

ghost use Rattle.model.specs.Claims.{DemandOne, DemandTwo, DemandThree, KeepsWellFormed, RunIsItsSteps};

pub fn demands(x: u32) -> u32
    ensures one { DemandOne }
    ensures two { DemandTwo }
    ensures three { DemandThree }
    ensures well_formed { KeepsWellFormed }
    ensures run { RunIsItsSteps }
{
    x
}
