// What a shell has at hand: the set last read, the set last accepted, the next heap and the machine.
use crate::faults::Refused;
use crate::heaps::{Base, HeapShape};
use crate::hex::{Hex, bytes_of};
use crate::listing::Counts;
use crate::lists::write_list;
use crate::machines::AnyMachine;
use crate::options::Words;
use crate::orders::Order;
use crate::request::Callee;
use crate::stop::Stop;
use set::reader::read;
use set::set::Set;
use std::fmt;
use verifier::accepted::Accepted;
use verifier::least::least_table;
use verifier::load::load;
use walk::{WIDTH, WORKSPACE};
use writer::{write, written_len};

#[derive(Drop)]
pub struct Desk {
    set: Set,
    accepted: Accepted,
    shape: HeapShape,
    machine: Option<AnyMachine>,
}

impl Desk {
    pub fn new() -> Desk {
        Desk {
            set: Set::empty(),
            accepted: Accepted::empty(),
            shape: HeapShape::new(Base::Slot),
            machine: None,
        }
    }

    /// `heap slot|cell [F P T] [F P T]`: the heap of the next machine.
    pub fn choose_heap(&mut self, rt: &HostRuntime, words: &mut Words) -> Result<(), Stop> {
        self.shape = HeapShape::parse(words)?;
        println!(rt; "heap ok")?;
        Ok(())
    }

    /// An order to the machine.
    pub fn carry_out(&mut self, rt: &HostRuntime, order: &Order) -> Result<(), Stop> {
        match self.machine.take() {
            Some(machine) => self.machine = Some(machine.serve(rt, order)?),
            None => println!(rt; "error: no machine")?,
        }
        Ok(())
    }

    /// `make NUMBER`: another machine, from the accepted set. An open run of the old one goes with it.
    pub fn make(&mut self, rt: &HostRuntime, words: &mut Words) -> Result<(), Stop> {
        let number = words.parse::<u32>()?;
        words.end()?;
        self.machine = Some(AnyMachine::make(self.accepted, self.shape, number));
        println!(rt; "made")?;
        Ok(())
    }

    /// `read HEX`: the current set.
    pub fn read(&mut self, rt: &HostRuntime, words: &mut Words) -> Result<(), Stop> {
        let file = bytes_of(rt.alloc(), words.all())?;
        read(file.as_slice(), &mut self.set).map_err(Refused::from)?;
        println!(rt; "read {}", Counts(self.set.tables()))?;
        Ok(())
    }

    /// `load HEX`: the current set, and the accepted set where it is accepted.
    pub fn load(&mut self, rt: &HostRuntime, words: &mut Words) -> Result<(), Stop> {
        let file = bytes_of(rt.alloc(), words.all())?;
        let mut workspace = [0u16; WORKSPACE];
        load(
            file.as_slice(),
            &mut self.set,
            &mut workspace,
            &mut self.accepted,
        )
        .map_err(Refused::File)?;
        println!(rt; "accepted {}", Counts(self.set.tables()))?;
        Ok(())
    }

    /// `write`: the bytes of the current set.
    pub fn write(&self, rt: &HostRuntime, words: &mut Words) -> Result<(), Stop> {
        words.end()?;
        let mut out = vec![in rt.alloc(); 0u8; written_len(&self.set)]?;
        write(&self.set, out.as_mut_slice()).map_err(Refused::Output)?;
        println!(rt; "{}", Hex(out.as_slice()))?;
        Ok(())
    }

    /// `table CLASS NAME`: the least table of the method that the class of the accepted set sees.
    pub fn table(&self, rt: &HostRuntime, words: &mut Words) -> Result<(), Stop> {
        let Callee { class, name } = Callee::parse(words)?;
        words.end()?;
        let mut rows = [0u16; WORKSPACE];
        least_table(&self.accepted, class, name, &mut rows).map_err(Refused::Table)?;
        let tables = self.accepted.set().tables();
        let count = tables
            .sees(class, name)
            .map_or(0, |k| tables.code_of(k).len());
        println!(rt; "{}", Rows { rows: &rows, count })?;
        Ok(())
    }
}

/// The numbers of the first `count` rows.
#[derive(Drop)]
struct Rows<'a> {
    rows: &'a [u16],
    count: usize,
}

impl fmt::Display for Rows<'_> {
    fn fmt<W: fmt::Write>(&self, f: &mut fmt::Formatter<W>) -> fmt::Result {
        let numbers = self.count.saturating_mul(WIDTH);
        write_list(f, " ", self.rows.iter().take(numbers).copied())
    }
}
