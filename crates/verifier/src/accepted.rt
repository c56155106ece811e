// The accepted set: a set each of whose methods has a well-typing.
ghost use Rattle.set.specs.Sets.{set_program};
ghost use Rattle.verifier.specs.Typable.{Typable};

use set::set::Set;

/// A set whose methods are all typable, as long as it exists; only verifying and `empty` make one.
#[derive(Clone, Copy)]
pub struct Accepted {
    pub(crate) set: Set,
    ghost typed: { ∥ (Typable (set_program set)) ∥₁ },
}
