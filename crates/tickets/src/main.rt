// Two runs of one machine, each ended with its own ticket. The edits of misuse/ turn this file so that it does not compile.
#![tactic(auto)]

use heap::store::Heap;
use jinja::answer::{Ended, Refusal};
use jinja::program::{ClassNumber, Name};
use machine::machine::Machine;
use set::set::Set;
use slot_heap::SlotHeap;
use verifier::accepted::Accepted;
use verifier::load::load;
use walk::WORKSPACE;

/// A set of one class 4 whose method 7 adds 2 and 3.
const FILE: [u8; 19] = [1, 0, 0, 1, 7, 0, 2, 2, 0, 4, 2, 3, 4, 2, 3, 6, 10, 9, 0];

const CLASS: ClassNumber = 4;

const METHOD: Name = 7;

fn main(rt: HostRuntime) -> anyhow::Result<()> {
    let mut set = Set::empty();
    let mut place = Accepted::empty();
    let mut workspace = [0u16; WORKSPACE];
    if let Err(fault) = load(&FILE, &mut set, &mut workspace, &mut place) {
        let number = fault.number();
        println!(rt; "refused {number}")?;
        return Ok(());
    }
    let mut machine = Machine::make(place, SlotHeap::new(), 1);
    match two_runs(&mut machine) {
        Ok((one, other)) => {
            print_ended(&rt, one)?;
            print_ended(&rt, other)?;
        }
        Err(refusal) => {
            let number = refusal.number();
            println!(rt; "refused {number}")?;
        }
    }
    Ok(())
}

fn print_ended(rt: &HostRuntime, ended: Ended) -> anyhow::Result<()> {
    let steps = ended.steps;
    println!(rt; "ended after {steps} steps")?;
    Ok(())
}

// Begins and ends a run, and then another.
fn two_runs<H: Heap>(machine: &mut Machine<H>) -> Result<(Ended, Ended), Refusal> {
    let first = machine.begin(CLASS, METHOD, &[])?;
    let one = match machine.end(first) {
        Ok(ended) => ended,
        Err((_, _held)) => unreachable(),
    };
    let second = machine.begin(CLASS, METHOD, &[])?;
    match machine.end(second) {
        Ok(ended) => Ok((one, ended)),
        Err((_, _held)) => unreachable(),
    }
}
