// Types over the tables of a set: those of cells, their order and their join.
ghost use Rattle.std.specs.Prelude.{◌≡◌, ◌≤◌};
ghost use Rattle.jinja.specs.Classes.{maybe};
ghost use Rattle.jinja.specs.Join.{nearest, join_class, join_type};
ghost use Rattle.jinja.specs.Rows.{usable, unusable};
ghost use Rattle.jinja.specs.Transfer.{cell_type, type_le};
ghost use Rattle.tables.specs.Views.{program_of};
ghost use Rattle.type_rows.specs.Numbers.{cell_number, cell_of_number, largest};

use crate::row::ABSENT;
use jinja::program::ClassNumber;
use jinja::ty::Ty;
use tables::tables::Tables;

/// The type of a cell of the stack or of a register, where it is usable.
pub fn cell_type(n: u16) -> Option<Ty>
    requires { n ≤ largest }
    ensures { result ≡ cell_type (cell_of_number n) }
{
    if n == ABSENT {
        None
    } else {
        Ty::try_from(n).ok()
    }
}

/// The number of a cell of this type, or of one that is unusable.
pub fn cell_number(t: Option<Ty>) -> u16
    ensures number { result ≡ cell_number (maybe t unusable usable) }
    ensures small { result ≤ largest }
{
    match t {
        Some(t) => u16::from(t),
        None => ABSENT,
    }
}

/// Whether `t` lies below `u`.
pub fn lies_below(tables: &Tables, t: Ty, u: Ty) -> bool
    ensures { result ≡ type_le (program_of tables.now) t u }
{
    match t {
        Ty::Void | Ty::Boolean | Ty::Integer => t == u,
        Ty::NullType => tables.null_at_or_below(u),
        Ty::Class(c) => tables.class_at_or_below(c, u),
    }
}

/// The least type above both, if there is one.
pub fn joined(tables: &Tables, t: Ty, u: Ty) -> Option<Ty>
    ensures { result ≡ join_type (program_of tables.now) t u }
{
    match t {
        Ty::Void | Ty::Boolean | Ty::Integer => (t == u).then_some(u),
        Ty::NullType => u.is_reference().then_some(u),
        Ty::Class(c) => joined_class(tables, c, u),
    }
}

// The least type above the class `c` and `u`, if there is one.
fn joined_class(tables: &Tables, c: ClassNumber, u: Ty) -> Option<Ty>
    ensures { result ≡ join_class (program_of tables.now) c u }
{
    match u {
        Ty::Void | Ty::Boolean | Ty::Integer => None,
        Ty::NullType => Some(Ty::Class(c)),
        Ty::Class(d) => Some(Ty::Class(nearest_common(tables, c, d))),
    }
}

// The nearest common superclass of `c` and `d`: the higher number is replaced by its superclass until both are equal.
fn nearest_common(tables: &Tables, c: ClassNumber, d: ClassNumber) -> ClassNumber
    ensures { result ≡ nearest (program_of tables.now) c d }
{
    let mut low = c;
    let mut other = d;
    let mut left = c as u16 + d as u16;
    // Kept, no plainer by `for`: the loop ends where both are equal, and the count is only its measure.
    while left > 0 && low != other {
        if low < other {
            other = tables.superclass(other);
        } else {
            low = tables.superclass(low);
        }
        left -= 1;
    }
    low
}
