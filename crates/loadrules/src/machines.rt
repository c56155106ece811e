// A machine over whichever heap it was made, and what is done with it.
use crate::heaps::{Allowances, Base, HeapShape};
use crate::stop::Stop;
use cell_heap::CellHeap;
use heap::allowance::Allowance;
use heap::store::Heap;
use machine::machine::Machine;
use slot_heap::SlotHeap;
use verifier::accepted::Accepted;

/// What is done with a machine, whichever heap it is over.
pub trait Job {
    fn do_with<H: Heap + Drop>(
        &self,
        rt: &HostRuntime,
        machine: &mut Machine<H>,
    ) -> Result<(), Stop>;
}

/// A machine over a heap of either kind, alone or under one or two allowances. Each pile has its variant: an enum that is
/// generic over the lower heap, tried in its place, cannot be stated, since `Allowance` has a bound and ghost fields.
#[derive(Drop)]
pub enum AnyMachine {
    Slot(Machine<SlotHeap>),
    SlotUnder(Machine<Allowance<SlotHeap>>),
    SlotUnderTwo(Machine<Allowance<Allowance<SlotHeap>>>),
    Cell(Machine<CellHeap>),
    CellUnder(Machine<Allowance<CellHeap>>),
    CellUnderTwo(Machine<Allowance<Allowance<CellHeap>>>),
}

impl AnyMachine {
    /// Makes a machine over a heap of that shape.
    pub fn make(accepted: Accepted, shape: HeapShape, number: u32) -> AnyMachine {
        match (shape.base, shape.allowances) {
            (Base::Slot, Allowances::Without) => {
                AnyMachine::Slot(Machine::make(accepted, SlotHeap::new(), number))
            }
            (Base::Slot, Allowances::One(line)) => {
                let heap = Allowance::new(SlotHeap::new(), line);
                AnyMachine::SlotUnder(Machine::make(accepted, heap, number))
            }
            (Base::Slot, Allowances::Two(inner, outer)) => {
                let heap = Allowance::new(Allowance::new(SlotHeap::new(), inner), outer);
                AnyMachine::SlotUnderTwo(Machine::make(accepted, heap, number))
            }
            (Base::Cell, Allowances::Without) => {
                AnyMachine::Cell(Machine::make(accepted, CellHeap::new(), number))
            }
            (Base::Cell, Allowances::One(line)) => {
                let heap = Allowance::new(CellHeap::new(), line);
                AnyMachine::CellUnder(Machine::make(accepted, heap, number))
            }
            (Base::Cell, Allowances::Two(inner, outer)) => {
                let heap = Allowance::new(Allowance::new(CellHeap::new(), inner), outer);
                AnyMachine::CellUnderTwo(Machine::make(accepted, heap, number))
            }
        }
    }

    /// Does the job with the machine, and hands it back. It moves, since a pattern may not lend what has ghost fields.
    pub fn serve<J: Job>(self, rt: &HostRuntime, job: &J) -> Result<AnyMachine, Stop> {
        Ok(match self {
            AnyMachine::Slot(m) => AnyMachine::Slot(served(rt, m, job)?),
            AnyMachine::SlotUnder(m) => AnyMachine::SlotUnder(served(rt, m, job)?),
            AnyMachine::SlotUnderTwo(m) => AnyMachine::SlotUnderTwo(served(rt, m, job)?),
            AnyMachine::Cell(m) => AnyMachine::Cell(served(rt, m, job)?),
            AnyMachine::CellUnder(m) => AnyMachine::CellUnder(served(rt, m, job)?),
            AnyMachine::CellUnderTwo(m) => AnyMachine::CellUnderTwo(served(rt, m, job)?),
        })
    }
}

fn served<H: Heap + Drop, J: Job>(
    rt: &HostRuntime,
    mut machine: Machine<H>,
    job: &J,
) -> Result<Machine<H>, Stop> {
    job.do_with(rt, &mut machine)?;
    Ok(machine)
}
