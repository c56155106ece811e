// A method of a set's tables, with what its rows are measured by.
ghost use Rattle.std.specs.Prelude.{◌≡◌, ◌<◌, ◌≤◌, true, length};
ghost use Rattle.format.specs.Limits.{max_height, max_registers};
ghost use Rattle.format.specs.Rules.{keeps};
ghost use Rattle.jinja.specs.Types.{type_number};
ghost use Rattle.jinja.specs.Rows as rows;
ghost use Rattle.tables.specs.Views.{methods_of, program_of};
ghost use Rattle.tables.specs.Methods.{Whole};
ghost use Rattle.walk.specs.Limits.{most_nodes};
ghost use Rattle.type_rows.specs.Methods.{the_method};

use jinja::ty::Ty;
use tables::tables::Tables;

/// The method of a number.
#[derive(Clone, Copy)]
pub struct Method<'a> {
    pub(crate) tables: &'a Tables,
    pub(crate) number: usize,
    /// The greatest height of the operand stack.
    pub(crate) height: usize,
    /// How many registers it has.
    pub(crate) registers: usize,
    pub(crate) result: Ty,
    ghost kept: { keeps (program_of tables.now) ≡ true },
    ghost whole: { Whole tables.now },
    ghost there: { number < length (methods_of tables.now) },
    ghost short: { length (the_method (program_of tables.now) number).method.code ≤ most_nodes },
    ghost high: { height ≡ (the_method (program_of tables.now) number).method.height },
    ghost low: { height ≤ max_height },
    ghost wide: { registers ≡ rows.registers (the_method (program_of tables.now) number) },
    ghost narrow: { registers ≤ max_registers },
    ghost gives: { type_number result ≡ type_number (the_method (program_of tables.now) number).method.result },
}
