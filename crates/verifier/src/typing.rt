// Methods by their numbers: which have a well-typing.
ghost use Rattle.std.specs.Prelude.{ℕ, ◌≤◌, length, MatchBool, MatchOption};
ghost use Rattle.set.specs.Sets.{set_program};
ghost use Rattle.verifier.specs.Limits.{workspace_length};
ghost use Rattle.verifier.specs.Verdicts.{TypedAt, UntypedAt, FirstUntyped};

use set::set::Set;
use type_rows::method::Method;
use walk::walk;

// The first method that has no well-typing. What the workspace holds then is of no use.
pub(crate) fn first_untypable(set: &Set, workspace: &mut [u16]) -> Option<usize>
    requires { workspace_length ≤ length workspace.old }
    ensures { MatchOption result ((k : ℕ) → TypedAt (set_program set.now) k) (FirstUntyped (set_program set.now)) }
{
    // Kept, no plainer by `find`: a closure that writes the workspace tells nothing of what it answered before.
    for k in 0..set.tables().methods.len() {
        if !is_typable(set, k, workspace) {
            return Some(k);
        }
    }
    None
}

// Whether the method of number `k`, if there is one, has a well-typing.
fn is_typable(set: &Set, k: usize, workspace: &mut [u16]) -> bool
    requires { workspace_length ≤ length workspace.old }
    ensures { MatchBool result (TypedAt (set_program set.now) k) (UntypedAt (set_program set.now) k) }
{
    match Method::of(set, k) {
        Some(method) => walk(&method, workspace).is_ok(),
        None => true,
    }
}
