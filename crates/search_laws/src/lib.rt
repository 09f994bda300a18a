// The laws of matching. The one function does nothing: it promises the claim, so that no check passes without its proof.
#![tactic(auto)]

ghost use Rattle.model.specs.Claims.{SearchExact};

pub fn search_exact(x: u32) -> u32
    ensures { SearchExact }
{
    x
}
