// Where Null's type and the classes lie among the types.
ghost use Rattle.std.specs.Prelude.{◌≡◌};
ghost use Rattle.jinja.specs.Transfer.{class_le, null_le};
ghost use Rattle.tables.specs.Views.{program_of};

use crate::tables::Tables;
use jinja::program::ClassNumber;
use jinja::ty::Ty;

impl Tables {
    /// Whether Null's type is `u` or lies below it: Null fits every class.
    pub fn null_at_or_below(&self, u: Ty) -> bool
        ensures { result ≡ null_le (program_of self.now) u }
    {
        match u {
            Ty::NullType => true,
            Ty::Class(d) => self.is_class(d),
            Ty::Void | Ty::Boolean | Ty::Integer => false,
        }
    }

    /// Whether the class `c` is `u` or lies below it.
    pub fn class_at_or_below(&self, c: ClassNumber, u: Ty) -> bool
        ensures { result ≡ class_le (program_of self.now) c u }
    {
        match u {
            Ty::Class(d) => self.at_or_below(c, d),
            Ty::Void | Ty::Boolean | Ty::Integer | Ty::NullType => false,
        }
    }
}
