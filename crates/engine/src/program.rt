// What the machine rests on of every rule set.
ghost use Rattle.std.specs.Prelude.{◌≡◌};
ghost use Rattle.set.specs.Sets.{tables_of};
ghost use Rattle.tables.specs.Views.{program_of};
ghost use Rattle.tables.specs.Methods.{Whole};
ghost use Rattle.engine.specs.Limits.{Fitting};

use set::set::Set;
use tables::tables::Tables;

/// The tables of a set: each method belongs to a class, and fits a frame.
#[derive(Clone, Copy)]
pub(crate) struct Program<'a> {
    pub(crate) tables: &'a Tables,
    ghost whole: { Whole tables.now },
    ghost fitting: { Fitting (program_of tables.now) },
}

impl<'a> Program<'a> {
    pub(crate) fn of(set: &'a Set) -> Program<'a>
        ensures { result.tables.now ≡ tables_of set.now }
    {
        let tables = set.tables();
        Program { tables }
    }
}
