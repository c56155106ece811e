// `loadrules run FILE CLASS NAME ..`: loads a file, and runs the method that the class sees from begin to end.
use crate::check::load_file;
use crate::faults::Refused;
use crate::listing::Counts;
use crate::look::{MOST_LINES, use_at};
use crate::machines::{AnyMachine, Job};
use crate::names::Named;
use crate::options::Words;
use crate::request::{Callee, Request};
use crate::stop::Stop;
use crate::values::ValueWord;
use crate::words::ClassWord;
use heap::store::Heap;
use jinja::answer::{Answer, Ended, Outcome};
use machine::machine::Machine;
use std::fmt;

/// The number of the one machine of a run.
const MACHINE: u32 = 0;

/// Runs what the words ask for.
pub fn run_file(rt: &HostRuntime, words: &mut Words) -> Result<(), Stop> {
    let path = words.text()?;
    let callee = Callee::parse(words)?;
    let request = Request::parse(rt.alloc(), words, callee, u64::MAX)?;
    let accepted = load_file(rt, path)?;
    println!(rt; "accepted {}", Counts(accepted.set().tables()))?;
    let _ = AnyMachine::make(accepted, request.shape, MACHINE).serve(rt, &Whole(request))?;
    Ok(())
}

/// A run from begin to end, which is told.
#[derive(Drop)]
struct Whole(Request);

/// An answer by its number and its name.
#[derive(Clone, Copy)]
struct AnswerWord(Answer);

/// How a run ended, over the heap that it left.
#[derive(Drop)]
struct Ending<'a, H: Heap> {
    ended: Ended,
    heap: &'a H,
}

impl Job for Whole {
    fn do_with<H: Heap + Drop>(
        &self,
        rt: &HostRuntime,
        machine: &mut Machine<H>,
    ) -> Result<(), Stop> {
        let Callee { class, name } = self.0.callee;
        let played = machine
            .play(class, name, self.0.args.as_slice(), self.0.steps)
            .map_err(Refused::Call)?;
        println!(rt; "begun class {class} name {name}")?;
        println!(rt;
            "ran {} steps, answer {}",
            played.ran.count,
            AnswerWord(played.ran.last)
        )?;
        let heap = machine.heap();
        let ended = played.ended;
        println!(rt; "{}", Ending { ended, heap })?;
        for (i, line) in (0..MOST_LINES).filter_map(|i| use_at(heap, i)).enumerate() {
            println!(rt; "line {i}: {} of {} used", line.used, line.total)?;
        }
        Ok(())
    }
}

impl fmt::Display for AnswerWord {
    fn fmt<W: fmt::Write>(&self, f: &mut fmt::Formatter<W>) -> fmt::Result {
        write!(f, "{} {}", self.0.number(), self.0.name())
    }
}

impl<H: Heap> fmt::Display for Ending<'_, H> {
    fn fmt<W: fmt::Write>(&self, f: &mut fmt::Formatter<W>) -> fmt::Result {
        let steps = self.ended.steps;
        match self.ended.outcome {
            Outcome::Returned(v) => write!(f, "finished after {steps} steps with {}", ValueWord(v)),
            Outcome::Threw(a) => {
                write!(f, "uncaught after {steps} steps: ")?;
                match self.heap.class(a) {
                    Ok(class) => write!(f, "the object @{a} of {}", ClassWord(class)),
                    Err(_) => write!(f, "@{a}"),
                }
            }
            Outcome::Nothing => write!(f, "ended in the run after {steps} steps"),
        }
    }
}
