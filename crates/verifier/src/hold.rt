// How an accepted set begins, and a look at the set that it holds.
ghost use Rattle.std.specs.Prelude.{◌≡◌, []};
ghost use Rattle.set.specs.Sets.{set_program};
ghost use Rattle.verifier.specs.Accepted.{accepted_set, accepted_program};

use crate::accepted::Accepted;
use set::set::Set;

impl Accepted {
    /// The accepted set of no own classes.
    pub fn empty() -> Accepted
        ensures { accepted_program result ≡ [] }
    {
        of_nothing(Set::empty())
    }

    /// The set that was accepted.
    pub fn set(&self) -> &Set
        ensures { result.now ≡ accepted_set self.now }
    {
        &self.set
    }
}

// A set without own classes has no method.
fn of_nothing(set: Set) -> Accepted
    requires { set_program set ≡ [] }
    ensures { accepted_program result ≡ [] }
{
    Accepted { set }
}
