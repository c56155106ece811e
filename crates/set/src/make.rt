// How a set begins, and a look at its tables.
ghost use Rattle.std.specs.Prelude.{◌≡◌, []};
ghost use Rattle.tables.specs.Views.{methods_of, program_of};
ghost use Rattle.set.specs.Sets.{tables_of, set_program};

use crate::set::Set;
use tables::tables::Tables;

impl Set {
    /// The set of no own classes.
    pub fn empty() -> Set
        ensures { set_program result ≡ [] }
    {
        of_nothing(Tables::empty())
    }

    /// The tables, to look things up in.
    pub fn tables(&self) -> &Tables
        ensures { result.now ≡ tables_of self.now }
    {
        &self.tables
    }
}

// The set of tables that hold no classes and no methods.
fn of_nothing(tables: Tables) -> Set
    requires program { program_of tables ≡ [] }
    requires methods { methods_of tables ≡ [] }
    ensures { set_program result ≡ [] }
{
    Set { tables }
}
