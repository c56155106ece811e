// What a look at a machine shows, each in one line: its frames, its objects and the use of its charge lines.
use crate::lists::write_list;
use crate::names::Named;
use crate::values::ValueWord;
use format::limits::{MAX_HEIGHT, MAX_REGISTERS};
use heap::store::Heap;
use heap::usage::used;
use machine::machine::Machine;
use std::fmt;

/// More lines than any pile here has.
pub const MOST_LINES: usize = 4;

/// The phase of a machine, and its frames from the top.
#[derive(Drop)]
pub struct Frames<'a, H: Heap>(pub &'a Machine<H>);

/// The number of a heap's objects, and each with its class and fields.
#[derive(Drop)]
pub struct Objects<'a, H: Heap>(pub &'a H);

/// The use of each of a heap's charge lines, from the top of the pile.
#[derive(Drop)]
pub struct Uses<'a, H: Heap>(pub &'a H);

/// How much of a charge line is used.
#[derive(Clone, Copy)]
pub struct Use {
    pub used: usize,
    pub total: u16,
}

/// The use of the charge line at a place of the pile, where there is one.
pub fn use_at<H: Heap>(heap: &H, place: usize) -> Option<Use> {
    let line = heap.line(place)?;
    Some(Use {
        used: used(heap, line),
        total: line.total,
    })
}

impl fmt::Display for Use {
    fn fmt<W: fmt::Write>(&self, f: &mut fmt::Formatter<W>) -> fmt::Result {
        write!(f, "{}/{}", self.used, self.total)
    }
}

impl<H: Heap> fmt::Display for Uses<'_, H> {
    fn fmt<W: fmt::Write>(&self, f: &mut fmt::Formatter<W>) -> fmt::Result {
        write_list(f, " ", (0..MOST_LINES).filter_map(|i| use_at(self.0, i)))
    }
}

impl<H: Heap> fmt::Display for Objects<'_, H> {
    fn fmt<W: fmt::Write>(&self, f: &mut fmt::Formatter<W>) -> fmt::Result {
        let heap = self.0;
        write!(f, "{}", heap.count())?;
        for a in 0..heap.count() {
            if let (Ok(class), Ok(len)) = (heap.class(a), heap.row_len(a)) {
                write!(f, " | class {class} [")?;
                let row = (0..len).filter_map(|j| heap.read(a, j).ok());
                write_list(f, " ", row.map(ValueWord))?;
                write!(f, "]")?;
            }
        }
        Ok(())
    }
}

impl<H: Heap> fmt::Display for Frames<'_, H> {
    fn fmt<W: fmt::Write>(&self, f: &mut fmt::Formatter<W>) -> fmt::Result {
        write!(f, "{}", self.0.phase().name())?;
        for i in (0..self.0.depth()).rev() {
            write_frame(f, self.0, i)?;
        }
        Ok(())
    }
}

fn write_frame<W: fmt::Write, H: Heap>(
    f: &mut fmt::Formatter<W>,
    machine: &Machine<H>,
    i: usize,
) -> fmt::Result {
    if let (Some(method), Some(at)) = (machine.method_of(i), machine.place_of(i)) {
        write!(f, " | method {method} at {at} stack [")?;
        let cells = (0..MAX_HEIGHT as usize).filter_map(|j| machine.cell(i, j));
        write_list(f, " ", cells.map(ValueWord))?;
        write!(f, "] registers [")?;
        let registers = (0..MAX_REGISTERS).filter_map(|j| machine.register(i, j));
        write_list(f, " ", registers.map(ValueWord))?;
        write!(f, "]")?;
    }
    Ok(())
}
