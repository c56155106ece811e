// Fields and methods by their names.
ghost use Rattle.std.specs.Prelude.{◌≡◌, ◌<◌, ℕ, length, IfSome};
ghost use Rattle.jinja.specs.Lookups.{position};

use crate::records::MethodRec;
use jinja::program::{Field, Name};

/// What has a name.
pub trait Named {
    ghost called: { Self → ℕ };

    fn name(&self) -> Name
        ensures { result ≡ called self.now };
}

impl Named for Field {
    ghost called = { λ f. f.name };

    fn name(&self) -> Name {
        self.name
    }
}

impl Named for MethodRec {
    ghost called = { λ m. m.name };

    fn name(&self) -> Name {
        self.name
    }
}

/// Where the first item of that name stands.
#[inline(always)]
pub fn position_of<T: Named>(items: &[T], name: Name) -> Option<usize>
    ensures place { result ≡ position T.Named.called name items.now }
    ensures within { IfSome result (λ i. i < length items.now) }
{
    items.iter().position(|item| item.name() == name)
}
