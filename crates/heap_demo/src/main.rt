// Fills each heap, alone and under allowances, to the limit of each charge line and one past it.
#![tactic(auto)]

mod fill;

use cell_heap::CellHeap;
use fill::fill_to_limit;
use heap::allowance::Allowance;
use heap::charge::ChargeLine;
use heap::fault::HeapFault;
use heap::store::Heap;
use heap::usage::used;
use heap::value::Value;
use slot_heap::SlotHeap;
use std::io;

// More lines than any pile here has.
const LINES: usize = 4;

fn main(rt: HostRuntime) -> io::Result<()> {
    let mut slots = SlotHeap::new();
    report(&rt, "slots", &mut slots, 0)?;
    report(&rt, "slots", &mut slots, 8)?;
    report(&rt, "slots", &mut slots, 9)?;
    visit(&rt, &mut slots)?;

    let mut cells = CellHeap::new();
    report(&rt, "cells", &mut cells, 0)?;
    report(&rt, "cells", &mut cells, 7)?;
    report(&rt, "cells", &mut cells, 8)?;
    visit(&rt, &mut cells)?;

    let mut four = Allowance::new(slots, line(1, 0, 4));
    report(&rt, "4 over slots", &mut four, 1)?;
    let mut none = Allowance::new(cells, line(1, 0, 0));
    report(&rt, "none over cells", &mut none, 1)?;

    piles(&rt)
}

// Each pile filled to the limit of its top line, and of those below it.
fn piles(rt: &HostRuntime) -> io::Result<()> {
    let middle = Allowance::new(CellHeap::new(), line(3, 0, 900));
    let mut pile = Allowance::new(middle, line(0, 1, 800));
    report(rt, "pile over cells", &mut pile, 8)?;
    report(rt, "pile over cells", &mut pile, 0)?;
    report(rt, "pile over cells", &mut pile, 3)?;
    visit(rt, &mut pile)?;

    let free = Allowance::new(SlotHeap::new(), line(0, 0, 0));
    let mut pile = Allowance::new(free, line(2, 3, 600));
    report(rt, "pile over slots", &mut pile, 1)?;
    report(rt, "pile over slots", &mut pile, 0)
}

fn line(fixed: u16, per_field: u16, total: u16) -> ChargeLine {
    ChargeLine {
        fixed,
        per_field,
        total,
    }
}

// Fills the heap with rows of one length, and shows how many it took, what it answers to one more, and each line's use.
fn report<H: Heap>(rt: &HostRuntime, name: &str, heap: &mut H, fields: usize) -> io::Result<()> {
    let values = [Value::Null; 9];
    let row = &values[..fields.min(9)];
    let taken = fill_to_limit(heap, 4, row);
    let number = answer(heap.add(4, row));
    println!(rt; "{name}, rows of {fields}: {taken} taken, then {number}")?;
    // By position, as a heap is asked.
    for position in 0..LINES {
        if let Some(line) = heap.line(position) {
            let sum = used(heap, line);
            let total = line.total;
            println!(rt; "  line {position}: {sum} of {total}")?;
        }
    }
    Ok(())
}

// One object: what is read back of it, and what is answered past its fields, past the last object and once it is gone.
fn visit<H: Heap>(rt: &HostRuntime, heap: &mut H) -> io::Result<()> {
    heap.empty();
    let added = answer(heap.add(4, &[Value::Int(-7), Value::Null]));
    let written = answer(heap.write(0, 1, Value::Addr(0)));
    let kept = heap.read(0, 0) == Ok(Value::Int(-7)) && heap.read(0, 1) == Ok(Value::Addr(0));
    let class = heap.class(0) == Ok(4) && heap.row_len(0) == Ok(2);
    println!(rt; "  added {added}, written {written}, read back {kept}, class and length {class}")?;
    let field = answer(heap.read(0, 2));
    let object = answer(heap.write(1, 0, Value::Unit));
    heap.empty();
    let gone = answer(heap.class(0));
    println!(rt; "  no field {field}, no object {object}, gone {gone}")
}

// A refusal's number, and 0 for none.
fn answer<T: Drop>(answered: Result<T, HeapFault>) -> u8 {
    answered.err().map_or(0, |fault| fault.number())
}
