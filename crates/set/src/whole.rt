// A whole file: its count of classes, its classes and nothing behind them.
ghost use Rattle.std.specs.Prelude.{◌+◌, ◌≤◌, length};
ghost use Rattle.format.specs.Parse.{classes_at, parse};
ghost use Rattle.tables.specs.Views.{classes_of, program_of};
ghost use Rattle.set.specs.Progress.{Full, LeftFull};
ghost use Rattle.set.specs.Taken.{Went};
ghost use Rattle.format.specs.Limits.{all_classes, max_classes};

use crate::class::read_class;
use crate::items::at_most;
use crate::push::clear;
use format::fault::TableFault;
use format::limits::MAX_CLASSES;
use number::cursor::Cursor;
use tables::tables::Tables;

// Reads `count` classes, and puts them behind those of the tables; `n` classes are named in all.
fn read_classes(c: &mut Cursor, n: u32, count: u32, t: &mut Tables) -> Result<(), TableFault>
    requires few { n ≤ all_classes }
    requires room { length (classes_of t.old) + count ≤ max_classes }
    requires full { Full t.old }
    ensures { Went c.old c.new (λ q. LeftFull result t.new (program_of t.new, q)) (λ file p. classes_at file n count (program_of t.old) p) }
{
    for _ in 0..count {
        read_class(c, n, t)?;
    }
    Ok(())
}

// Reads the file into the tables, whatever they held.
pub(crate) fn read_whole(file: &[u8], t: &mut Tables) -> Result<(), TableFault>
    ensures { LeftFull result t.new (program_of t.new) (parse file.now) }
{
    clear(t);
    let mut c = Cursor::new(file);
    let count = at_most(&mut c, MAX_CLASSES as u32)?;
    read_classes(&mut c, 4 + count, count, t)?;
    if !c.at_end() {
        return Err(TableFault::LeftOver(c.place()));
    }
    Ok(())
}
