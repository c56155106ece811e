// Whether numbers are the same.
ghost use Rattle.std.specs.Prelude.{◌≡◌, length, MatchBool, ◌≢◌};

/// Whether two slices of one length hold the same numbers.
pub fn same_numbers(left: &[u16], right: &[u16]) -> bool
    requires { length left.now ≡ length right.now }
    ensures { MatchBool result (left.now ≡ right.now) (left.now ≢ right.now) }
{
    left == right
}
