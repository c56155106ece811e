// The rule set in memory: tables whose program keeps all limits and rules.
ghost use Rattle.std.specs.Prelude.{◌≡◌, true, length};
ghost use Rattle.format.specs.Rules.{keeps};
ghost use Rattle.jinja.specs.Lookups.{count_methods};
ghost use Rattle.tables.specs.Views.{program_of, methods_of};

use tables::tables::Tables;

/// A rule set. Every set in memory keeps the limits and rules of the file format; only reading and `empty` make one.
#[derive(Clone, Copy)]
pub struct Set {
    pub(crate) tables: Tables,
    ghost kept: { keeps (program_of tables) ≡ true },
    // each method belongs to a class
    ghost whole: { count_methods (program_of tables) ≡ length (methods_of tables) },
}
