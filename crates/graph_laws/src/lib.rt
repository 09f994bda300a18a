// Laws of the graph: its links, its deletions, its journal. The one function promises the two claims about deletion, so that
// no check passes without their proofs.
#![tactic(auto)]

ghost use Rattle.std.specs.Prelude.{◌≡◌};
ghost use Rattle.model.specs.Claims.{ReachedExactly, DeletesExactly};

pub fn deletes_exactly(x: u32) -> u32
    ensures unchanged { result ≡ x }
    ensures reached { ReachedExactly }
    ensures deleted { DeletesExactly }
{
    x
}
