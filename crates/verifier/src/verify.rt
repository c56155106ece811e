// Verifying: a set is accepted exactly where each of its methods has a well-typing.
ghost use Rattle.std.specs.Prelude.{◌≡◌, ℕ, MatchResult};
ghost use Rattle.set.specs.Sets.{set_program};
ghost use Rattle.verifier.specs.Accepted.{accepted_set};
ghost use Rattle.verifier.specs.Verdicts.{TypedAt};
ghost use Rattle.verifier.specs.Verifying.{Accepts, Refuses};

use crate::accepted::Accepted;
use crate::fault::VerifierFault;
use crate::typing::first_untypable;
use set::set::Set;
use type_rows::row::clear;
use walk::WORKSPACE;

/// Verifies the set in a workspace of at least 8,448 numbers. Where each method has a well-typing, `place` holds the set.
///
/// Refuses a workspace that is too short (10), which stays as it is, and the first method that has no well-typing (11).
/// A refusal leaves `place` as it was. Unless the workspace is too short, each of its numbers is 255 afterwards.
pub fn verify(set: &Set, workspace: &mut [u16], place: &mut Accepted) -> Result<(), VerifierFault>
    ensures { MatchResult result (λ _. Accepts set.now workspace.old workspace.new place.new) (λ e. Refuses e set.now workspace.old workspace.new place.old place.new) }
{
    if workspace.len() < WORKSPACE {
        return Err(VerifierFault::Short);
    }
    let untypable = first_untypable(set, workspace);
    clear(workspace);
    match untypable {
        Some(k) => Err(VerifierFault::Untypable(k)),
        None => {
            *place = accept(set);
            Ok(())
        }
    }
}

// A set of typable methods is accepted.
fn accept(set: &Set) -> Accepted
    requires { (k : ℕ) → TypedAt (set_program set.now) k }
    ensures { accepted_set result ≡ set.now }
{
    Accepted { set: *set }
}
