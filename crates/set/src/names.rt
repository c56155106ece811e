// Names, each of which stands once among the fields or methods of a class.
ghost use Rattle.format.specs.Parse.{name_at};
ghost use Rattle.set.specs.Taken.{Took};

use crate::items::read_operand;
use format::fault::TableFault;
use number::cursor::Cursor;
use tables::names::{Named, position_of};

// A name that no item of `mine` has.
pub(crate) fn read_name<T: Named>(c: &mut Cursor, mine: &[T]) -> Result<u8, TableFault>
    ensures { Took result c.old c.new (λ file p. name_at file T.Named.called mine.now p) }
{
    let start = c.place();
    let name = read_operand(c)?;
    if position_of(mine, name).is_some() {
        return Err(TableFault::Twice(start));
    }
    Ok(name)
}
