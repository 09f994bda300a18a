// The laws of programs. The one function promises that a program is well formed exactly when some text loads to it, and what a load
// accepts and refuses by the places that it comes to, so that no check passes without the proofs.
#![tactic(auto)]

ghost use Rattle.model.specs.Claims.{WellFormedLoads, LoadsRightly};

pub fn loads_exactly(x: u32) -> u32
    ensures well_formed { WellFormedLoads }
    ensures places { LoadsRightly }
{
    x
}
