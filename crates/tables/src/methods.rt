// Methods: the one that a class sees, and what a method has.
ghost use Rattle.std.specs.Prelude.{◌≡◌};
ghost use Rattle.jinja.specs.Lookups.{own_method, sees_within, sees};
ghost use Rattle.tables.specs.Views.{program_of};

use crate::names::position_of;
use crate::tables::Tables;
use jinja::program::{ClassNumber, Name, OBJECT};

impl Tables {
    /// The number of the method of that name that is declared nearest upward from `c`.
    #[inline(always)]
    pub fn sees(&self, c: ClassNumber, name: Name) -> Option<usize>
        ensures { result ≡ sees (program_of self.now) c name }
    {
        self.nearest(c, c, name)
    }

    // The method of that name nearest upward from `c`, within so many steps.
    #[inline(always)]
    fn nearest(&self, steps: u8, c: ClassNumber, name: Name) -> Option<usize>
        ensures climb { result ≡ sees_within (program_of self.now) steps c name }
        ensures all { steps ≡ c → result ≡ sees (program_of self.now) c name }
    {
        let mut at = c;
        for _ in 0..steps {
            let own = self.own_method(at, name);
            if own.is_some() || at == OBJECT {
                return own;
            }
            at = self.superclass(at);
        }
        self.own_method(at, name)
    }

    // The method of that name that `c` itself declares.
    #[inline(always)]
    fn own_method(&self, c: ClassNumber, name: Name) -> Option<usize>
        ensures { result ≡ own_method (program_of self.now) c name }
    {
        let class = self.class(c)?;
        let own = class.methods.all_of(self.methods.as_slice());
        let i = position_of(own, name)?;
        Some(class.methods.first + i)
    }
}
