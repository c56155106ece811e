// `loadrules table FILE CLASS NAME`: the least well-typing of a method, one line an instruction.
use crate::check::load_file;
use crate::faults::Refused;
use crate::listing::registers_of;
use crate::lists::write_list;
use crate::options::Words;
use crate::request::Callee;
use crate::stop::Stop;
use crate::words::{InstrWord, TypeWord};
use jinja::ty::Ty;
use std::fmt;
use tables::tables::Tables;
use type_rows::row::REGISTERS;
use verifier::accepted::Accepted;
use verifier::least::least_table;
use walk::{WIDTH, WORKSPACE};

/// The number of what is absent or unusable.
const ABSENT: u16 = 255;

/// Prints the least table that the words ask for.
pub fn table_file(rt: &HostRuntime, words: &mut Words) -> Result<(), Stop> {
    let path = words.text()?;
    let callee = Callee::parse(words)?;
    words.end()?;
    print_table(rt, &load_file(rt, path)?, callee)
}

fn print_table(rt: &HostRuntime, accepted: &Accepted, callee: Callee) -> Result<(), Stop> {
    let mut rows = [0u16; WORKSPACE];
    let Callee { class, name } = callee;
    least_table(accepted, class, name, &mut rows).map_err(Refused::Table)?;
    let tables = accepted.set().tables();
    if let Some(k) = tables.sees(class, name) {
        println!(rt; "method {k}")?;
        print_rows(rt, tables, k, &rows)?;
    }
    Ok(())
}

fn print_rows(rt: &HostRuntime, tables: &Tables, k: usize, rows: &[u16]) -> Result<(), Stop> {
    let registers = tables.method(k).map_or(0, registers_of);
    let code = tables.code_of(k).iter().enumerate();
    for ((at, instr), row) in code.zip(rows.chunks_exact(WIDTH)) {
        let instr = *instr;
        println!(rt;
            "  {at}: {} | {}",
            InstrWord { at, instr },
            RowWord { row, registers }
        )?;
    }
    Ok(())
}

/// The row of an instruction: its stack, and so many registers.
#[derive(Drop)]
struct RowWord<'a> {
    row: &'a [u16],
    registers: usize,
}

/// A type by its number in a row.
#[derive(Clone, Copy)]
struct NumberWord(u16);

impl fmt::Display for RowWord<'_> {
    fn fmt<W: fmt::Write>(&self, f: &mut fmt::Formatter<W>) -> fmt::Result {
        match self.row.split_first() {
            None | Some((0, _)) => write!(f, "unreached"),
            Some((height, cells)) => {
                let height = usize::from(*height) - 1;
                write!(f, "stack [")?;
                write_types(f, cells, height)?;
                write!(f, "] registers [")?;
                write_types(f, self.row.get(REGISTERS..).unwrap_or(&[]), self.registers)?;
                write!(f, "]")
            }
        }
    }
}

// The first types of a row's part.
fn write_types<W: fmt::Write>(
    f: &mut fmt::Formatter<W>,
    numbers: &[u16],
    count: usize,
) -> fmt::Result {
    write_list(f, ", ", numbers.iter().take(count).map(|n| NumberWord(*n)))
}

impl fmt::Display for NumberWord {
    fn fmt<W: fmt::Write>(&self, f: &mut fmt::Formatter<W>) -> fmt::Result {
        match Ty::try_from(self.0) {
            Ok(ty) if self.0 != ABSENT => write!(f, "{}", TypeWord(ty)),
            _ => write!(f, "unusable"),
        }
    }
}
