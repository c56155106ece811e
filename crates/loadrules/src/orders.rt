// What a shell's line orders of its machine, and the one line that answers it.
use crate::look::{Frames, Objects, Uses};
use crate::machines::Job;
use crate::options::Words;
use crate::replies::ReplyLine;
use crate::request::Callee;
use crate::stop::{NotUnderstood, Stop};
use crate::values::ValueWord;
use heap::store::Heap;
use heap::value::Value;
use machine::call::Call;
use machine::machine::Machine;
use std::alloc::Global;
use std::vec::Vec;

/// An order to a machine.
#[derive(Drop)]
pub enum Order {
    Begin(Callee, Vec<Value>),
    Step,
    Run(u64),
    End,
    Look,
    Objects,
    Use,
}

impl Order {
    /// The order that the words give.
    pub fn parse(alloc: Global, words: &mut Words) -> Result<Order, Stop> {
        let order = match words.text()? {
            "begin" => Order::Begin(Callee::parse(words)?, values_of(alloc, words)?),
            "run" => Order::Run(words.parse::<u64>()?),
            "step" => Order::Step,
            "end" => Order::End,
            "look" => Order::Look,
            "objects" => Order::Objects,
            "use" => Order::Use,
            _ => return Err(Stop::NotUnderstood),
        };
        words.end()?;
        Ok(order)
    }
}

// The values that all words from here on write.
fn values_of(alloc: Global, words: &mut Words) -> Result<Vec<Value>, Stop> {
    let mut values = Vec::new(alloc);
    for word in words.all() {
        values.push(word.as_str().parse::<ValueWord>()?.0)?;
    }
    Ok(values)
}

impl Job for Order {
    fn do_with<H: Heap + Drop>(
        &self,
        rt: &HostRuntime,
        machine: &mut Machine<H>,
    ) -> Result<(), Stop> {
        let call = match self {
            Order::Begin(callee, args) => Call::Begin(callee.class, callee.name, args.as_slice()),
            Order::Step => Call::Step,
            Order::Run(n) => Call::Run(*n),
            Order::End => Call::End(machine.number()),
            Order::Look => return Ok(println!(rt; "{}", Frames(machine))?),
            Order::Objects => return Ok(println!(rt; "{}", Objects(machine.heap()))?),
            Order::Use => return Ok(println!(rt; "{}", Uses(machine.heap()))?),
        };
        println!(rt; "{}", ReplyLine(machine.perform(call)))?;
        Ok(())
    }
}
