// The methods of a class, one behind the other.
ghost use Rattle.std.specs.Prelude.{◌≡◌, ◌+◌, ◌≤◌, length, IfOk, Ok, Err, MatchResult, OnOk};
ghost use Rattle.jinja.specs.Lookups.{count_methods};
ghost use Rattle.format.specs.Reading.{Left, counted};
ghost use Rattle.format.specs.Parse.{method_at, methods_at};
ghost use Rattle.tables.specs.Views.{methods_of, program_of};
ghost use Rattle.set.specs.Progress.{mine, Tallied, MoreMethods};
ghost use Rattle.set.specs.Taken.{Went};
ghost use Rattle.format.specs.Limits.{all_classes, max_methods};

use crate::method::read_method;
use crate::spans::read_more;
use format::fault::TableFault;
use format::limits::MAX_METHODS;
use jinja::program::ClassNumber;
use number::cursor::Cursor;
use tables::records::Span;
use tables::tables::Tables;

// Reads `count` methods of a class under `s`, whose first method has the number `first`.
fn add_methods(
    c: &mut Cursor,
    n: u32,
    s: ClassNumber,
    first: usize,
    count: usize,
    t: &mut Tables,
) -> Result<(), TableFault>
    requires few { n ≤ all_classes }
    requires room { length (methods_of t.old) + count ≤ max_methods }
    requires tallied { Tallied first t.old }
    ensures tallied { OnOk result (Tallied first t.new) }
    ensures more { OnOk result (MoreMethods count t.old t.new) }
    ensures went { Went c.old c.new (λ q. Left result (mine first t.new, q)) (λ file p. counted (method_at file n (program_of t.old) s) count (mine first t.old) p) }
{
    for _ in 0..count {
        read_method(c, n, s, first, t)?;
    }
    Ok(())
}

// Reads the methods of a class under `s`.
pub(crate) fn read_methods(
    c: &mut Cursor,
    n: u32,
    s: ClassNumber,
    t: &mut Tables,
) -> Result<Span, TableFault>
    requires few { n ≤ all_classes }
    requires whole { count_methods (program_of t.old) ≡ length (methods_of t.old) }
    requires tallied { Tallied (length (methods_of t.old)) t.old }
    ensures first { IfOk result (λ k. k.first ≡ length (methods_of t.old)) }
    ensures tallied { IfOk result (λ k. Tallied k.first t.new) }
    ensures more { IfOk result (λ k. MoreMethods k.count t.old t.new) }
    ensures went { Went c.old c.new
        (λ q X. MatchResult result (λ k. X ≡ Ok (mine k.first t.new, q)) (λ e. X ≡ Err e))
        (λ file p. methods_at file n (program_of t.old) s p) }
{
    let first = t.methods.len();
    let count = read_more(c, first, MAX_METHODS)?;
    add_methods(c, n, s, first, count, t)?;
    Ok(Span { first, count })
}
