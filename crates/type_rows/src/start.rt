// The row that a method begins with.
ghost use Rattle.std.specs.Prelude.{◌≡◌, ◌≤◌, ◌++◌, map, length, drop};
ghost use Rattle.jinja.specs.Rows as rows;
ghost use Rattle.jinja.specs.Types.{type_number};
ghost use Rattle.type_rows.specs.Merging.{merged};
ghost use Rattle.type_rows.specs.Numbers.{Shows, read_row, row_numbers};
ghost use Rattle.type_rows.specs.Stepping.{program, owned};

use crate::method::Method;
use crate::row::{ABSENT, CELLS, write_row};
use format::limits::MAX_REGISTERS;
use jinja::program::{ClassNumber, OBJECT};
use jinja::ty::Ty;
use walk::WIDTH;

impl<'a> Method<'a> {
    // Writes the row of the first instruction as the method begins: no operands, this object, the parameters, and
    // unusable extras.
    pub(crate) fn start(&self, out: &mut [u16; WIDTH])
        ensures shows { Shows (program self.now) (owned self.now) out.new }
        ensures means { read_row (rows.registers (owned self.now)) out.new ≡ merged (rows.first_row (owned self.now)) }
    {
        self.write_first(out);
    }

    // Writes the numbers of that row.
    fn write_first(&self, out: &mut [u16; WIDTH])
        ensures { out.new ≡ row_numbers (rows.first_row (owned self.now)) }
    {
        let cells = [ABSENT; CELLS];
        let mut registers = [ABSENT; MAX_REGISTERS];
        registers[0] = u16::from(Ty::Class(self.owner()));
        write_types(&mut registers[1..MAX_REGISTERS], self.params());
        write_row(out, 0, &cells, &registers);
    }

    // The class that declares it.
    fn owner(&self) -> ClassNumber
        ensures { result ≡ (owned self.now).owner }
    {
        self.tables.owner(self.number).unwrap_or(OBJECT)
    }

    // The types of its parameters.
    fn params(&self) -> &[Ty]
        ensures { result.now ≡ (owned self.now).method.params }
    {
        self.tables.params_of(self.number)
    }
}

// Writes the numbers of types into the first cells.
fn write_types(cells: &mut [u16], types: &[Ty])
    requires { length types.now ≤ length cells.old }
    ensures { cells.new ≡ map type_number types.now ++ drop (length types.now) cells.old }
{
    // Kept, tried by `zip`: no invariant can name the cells that a zipped `iter_mut` has written.
    for (k, t) in types.iter().enumerate() {
        cells[k] = u16::from(*t);
    }
}
