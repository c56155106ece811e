// The reader: from the bytes of a file to a rule set, or to the first fault.
ghost use Rattle.std.specs.Prelude.{◌≡◌, true, length, is_ok, OnOk};
ghost use Rattle.jinja.specs.Program.{Program};
ghost use Rattle.jinja.specs.Lookups.{count_methods};
ghost use Rattle.format.specs.Encode.{encode};
ghost use Rattle.format.specs.Rules.{keeps};
ghost use Rattle.format.specs.Reading.{Left};
ghost use Rattle.format.specs.Parse.{parse, filled};
ghost use Rattle.tables.specs.Views.{methods_of, program_of};
ghost use Rattle.set.specs.Sets.{set_program};

use crate::push::clear;
use crate::set::Set;
use crate::whole::read_whole;
use format::fault::TableFault;
use tables::tables::Tables;

// Reads the file into the tables, which a refusal leaves empty.
fn fill(file: &[u8], t: &mut Tables) -> Result<(), TableFault>
    ensures gave { Left result (program_of t.new) (parse file.now) }
    ensures filled { program_of t.new ≡ filled (parse file.now) }
    ensures whole { count_methods (program_of t.new) ≡ length (methods_of t.new) }
{
    let read = read_whole(file, t);
    if read.is_err() {
        clear(t);
    }
    read
}

/// Reads the file into the set, whatever it held.
///
/// Refuses the first fault in file order: a number (1 to 3), a limit (4), an instruction, literal or Boolean (5), a
/// class (6), a name again (7), an override (8) or bytes left over (9). A refusal leaves the set of no own classes.
pub fn read(file: &[u8], set: &mut Set) -> Result<(), TableFault>
    ensures gave { Left result (set_program set.new) (parse file.now) }
    ensures filled { set_program set.new ≡ filled (parse file.now) }
    ensures encoding { OnOk result (file.now ≡ encode (set_program set.new)) }
    ensures reads { (P : Program) → keeps P ≡ true → file.now ≡ encode P → (is_ok result ≡ true) × (set_program set.new ≡ P) }
{
    fill(file, &mut set.tables)
}
