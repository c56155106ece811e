// The theorems that verifying rests on. Each function does nothing: its contract is the theorem.
ghost use Rattle.type_rows.specs.Typings.{TypedBySolvingHolds};

/// The least solution of a method's flow of type rows is its least well-typing, and a method whose flow has no solution
/// has no well-typing.
pub fn typed_by_solving()
    ensures { TypedBySolvingHolds }
{}
