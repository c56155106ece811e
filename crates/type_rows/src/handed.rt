// A row as it is handed out: what is absent or unusable is 255.
ghost use Rattle.std.specs.Prelude.{◌≡◌, length};
ghost use Rattle.jinja.specs.Rows as rows;
ghost use Rattle.type_rows.specs.Numbers.{width, read_row, row_numbers};
ghost use Rattle.type_rows.specs.Stepping.{owned};
ghost use Rattle.type_rows.specs.Typings.{row_of};

use crate::method::Method;
use crate::row::{REGISTERS, Shown, clear_from, write_unreached};
use walk::WIDTH;

impl<'a> Method<'a> {
    /// Makes every number absent that the row does not show; a clash becomes unreached.
    pub fn hand_out(&self, row: &mut [u16])
        requires { length row.old ≡ width }
        ensures { row.new ≡ row_numbers (row_of (read_row (rows.registers (owned self.now)) row.old)) }
    {
        match Shown::of(row) {
            Shown::Unreached => write_unreached(row),
            Shown::Clash => write_unreached(row),
            Shown::Reached(height) => {
                clear_from(&mut row[1..REGISTERS], height);
                clear_from(&mut row[REGISTERS..WIDTH], self.registers);
            }
        }
    }
}
