// Writing a set: a dry run, which changes nothing, and then the other.
ghost use Rattle.std.specs.Prelude.{◌≡◌, ◌<◌, ◌≤◌, true, length, MatchResult};
ghost use Rattle.number.specs.Puts.{Ran, Written};
ghost use Rattle.format.specs.Encode.{encode};
ghost use Rattle.format.specs.Rules.{keeps};
ghost use Rattle.set.specs.Sets.{set_program};
ghost use Rattle.tables.specs.Views.{program_of};
ghost use Rattle.writer.specs.Longest.{longest_file};
ghost use Rattle.writer.specs.Reading.{ReadsAs};

use crate::fault::WriteFault;
use crate::limits::LONGEST_FILE;
use crate::records::put_program;
use number::pen::{Pen, Short};
use set::set::Set;
use tables::tables::Tables;

/// Writes the set's file into `out` from its first byte on, and answers its length; the bytes behind it stay.
/// Reading so many bytes of `out` gives the set again.
/// Refuses with 10, at place 0, where `out` is shorter than the file, and then leaves all of `out` as it was.
pub fn write(set: &Set, out: &mut [u8]) -> Result<usize, WriteFault>
    ensures written { Written result (encode (set_program set.now)) out.old out.new }
    ensures read { ReadsAs result (set_program set.now) out.new }
{
    let tables = set.tables();
    measure(tables, out)?;
    fill(tables, out)
}

/// The length of the set's file: what `write` answers, where there is room. At most `LONGEST_FILE`.
pub fn written_len(set: &Set) -> usize
    ensures len { result ≡ length (encode (set_program set.now)) }
    ensures most { result ≤ longest_file }
{
    file_len(set.tables())
}

fn file_len(tables: &Tables) -> usize
    requires { keeps (program_of tables.now) ≡ true }
    ensures len { result ≡ length (encode (program_of tables.now)) }
    ensures most { result ≤ longest_file }
{
    let mut room = [0; LONGEST_FILE];
    match measure(tables, &mut room) {
        Ok(n) => n,
        Err(_) => unreachable(),
    }
}

// Answers how long the file is, where it has room in `out`.
fn measure(tables: &Tables, out: &mut [u8]) -> Result<usize, Short>
    ensures answer { MatchResult result (λ n. (n ≡ length (encode (program_of tables.now))) × (n ≤ length out.old)) (λ _. length out.old < length (encode (program_of tables.now))) }
    ensures same { out.new ≡ out.old }
{
    run(tables, out, true)
}

fn fill(tables: &Tables, out: &mut [u8]) -> Result<usize, WriteFault>
    requires kept { keeps (program_of tables.now) ≡ true }
    requires room { length (encode (program_of tables.now)) ≤ length out.old }
    ensures written { Written result (encode (program_of tables.now)) out.old out.new }
    ensures read { ReadsAs result (program_of tables.now) out.new }
{
    Ok(run(tables, out, false)?)
}

fn run(tables: &Tables, out: &mut [u8], dry: bool) -> Result<usize, Short>
    ensures { Ran result dry (encode (program_of tables.now)) out.old out.new }
{
    let mut pen = Pen::new(out, dry);
    put_program(&mut pen, tables)?;
    Ok(pen.place())
}
