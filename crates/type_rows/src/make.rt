// The method of a number in a set.
ghost use Rattle.std.specs.Prelude.{◌≡◌, ◌<◌, true, None, MatchOption};
ghost use Rattle.format.specs.Rules.{keeps};
ghost use Rattle.jinja.specs.Lookups.{method_at};
ghost use Rattle.tables.specs.Views.{program_of};
ghost use Rattle.tables.specs.Methods.{Stands, Whole};
ghost use Rattle.set.specs.Sets.{set_program};
ghost use Rattle.type_rows.specs.Stepping.{MethodOf};

use crate::method::Method;
use set::set::Set;
use tables::records::MethodRec;
use tables::tables::Tables;

impl<'a> Method<'a> {
    /// The method of that number; `None` where the set has none.
    pub fn of(set: &'a Set, number: usize) -> Option<Method<'a>>
        ensures { MatchOption result (method_at (set_program set.now) number ≡ None) (MethodOf (set_program set.now) number) }
    {
        let tables = set.tables();
        let method = tables.method(number)?;
        Some(of_record(tables, number, method))
    }
}

// The method of a record.
fn of_record<'a>(tables: &'a Tables, number: usize, method: MethodRec) -> Method<'a>
    requires kept { keeps (program_of tables.now) ≡ true }
    requires whole { Whole tables.now }
    requires stands { Stands tables.now number method }
    ensures { MethodOf (program_of tables.now) number result }
{
    Method {
        tables,
        number,
        height: method.height as usize,
        registers: 1 + method.params.count + method.extras as usize,
        result: method.result,
    }
}
