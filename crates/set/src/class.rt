// A class, read behind those that the tables have.
ghost use Rattle.std.specs.Prelude.{◌≡◌, ◌+◌, ◌<◌, ◌≤◌, length, OnOk};
ghost use Rattle.tables.specs.Views.{classes_of, program_of};
ghost use Rattle.set.specs.Counts.{below_at};
ghost use Rattle.set.specs.Progress.{Full, LeftFull, class_step};
ghost use Rattle.format.specs.Limits.{all_classes, max_classes};
ghost use Rattle.set.specs.Taken.{Took, Went};

use crate::methods::read_methods;
use crate::push::push_class;
use crate::spans::read_fields;
use format::fault::TableFault;
use jinja::program::ClassNumber;
use number::cursor::Cursor;
use tables::records::ClassRec;
use tables::tables::Tables;

// The superclass of a class that has `known` own classes before it.
fn read_superclass(c: &mut Cursor, known: usize) -> Result<ClassNumber, TableFault>
    requires { known ≤ max_classes }
    ensures { Took result c.old c.new (λ file p. below_at file (4 + known) p) }
{
    let start = c.place();
    let s = c.number()?;
    if s >= 4 + known as u32 {
        return Err(TableFault::Classless(start));
    }
    Ok(s as u8)
}

// Reads a class, and puts it behind those of the tables; `n` classes are named in all.
pub(crate) fn read_class(c: &mut Cursor, n: u32, t: &mut Tables) -> Result<(), TableFault>
    requires few { n ≤ all_classes }
    requires room { length (classes_of t.old) < max_classes }
    requires full { Full t.old }
    ensures more { OnOk result (length (classes_of t.new) ≡ length (classes_of t.old) + 1) }
    ensures went { Went c.old c.new (λ q. LeftFull result t.new (program_of t.new, q)) (λ file p. class_step file n (program_of t.old) p) }
{
    let superclass = read_superclass(c, t.classes.len())?;
    let inherited = t.row_len(superclass);
    let fields = read_fields(c, n, inherited, t)?;
    let methods = read_methods(c, n, superclass, t)?;
    let class = ClassRec {
        superclass,
        fields,
        methods,
    };
    push_class(t, class);
    Ok(())
}
