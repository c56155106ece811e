// `loadrules bench ..`: how long steps, verifying and reading take.
use crate::check::load_file;
use crate::faults::Refused;
use crate::machines::{AnyMachine, Job};
use crate::options::Words;
use crate::request::{Callee, Request};
use crate::stop::{NotUnderstood, Stop};
use anyhow::anyhow;
use heap::store::Heap;
use jinja::answer::Refusal;
use machine::machine::Machine;
use set::reader::read;
use set::set::Set;
use std::time::Instant;
use std::vec::Vec;
use std::{fmt, fs};
use verifier::accepted::Accepted;
use verifier::verify::verify;
use walk::WORKSPACE;

/// The number of the one machine of a measurement.
const MACHINE: u32 = 0;

/// Measures what the words ask for.
pub fn bench(rt: &HostRuntime, words: &mut Words) -> Result<(), Stop> {
    match words.text()? {
        "run" => bench_run(rt, words),
        "verify" => bench_verify(rt, words),
        "read" => bench_read(rt, words),
        _ => Err(Stop::NotUnderstood),
    }
}

fn bench_run(rt: &HostRuntime, words: &mut Words) -> Result<(), Stop> {
    let path = words.text()?;
    let callee = Callee::parse(words)?;
    let steps = count_of(words)?;
    let request = Request::parse(rt.alloc(), words, callee, steps)?;
    let accepted = load_file(rt, path)?;
    let _ = AnyMachine::make(accepted, request.shape, MACHINE).serve(rt, &Steps(request))?;
    Ok(())
}

/// Steps that are measured.
#[derive(Drop)]
struct Steps(Request);

impl Job for Steps {
    fn do_with<H: Heap + Drop>(
        &self,
        rt: &HostRuntime,
        machine: &mut Machine<H>,
    ) -> Result<(), Stop> {
        let start = Instant::now(rt)?;
        let done = run_steps(machine, &self.0).map_err(Refused::Call)?;
        let total = nanos_since(rt, start)?;
        println!(rt; "steps={done}")?;
        println!(rt; "ns-per-step={}", Share { total, count: done })?;
        Ok(())
    }
}

// Runs the steps of a request, where it says so in several runs one after the other; how many were stepped.
fn run_steps<H: Heap>(machine: &mut Machine<H>, request: &Request) -> Result<u64, Refusal> {
    let mut left = request.steps;
    // The range only shows that this ends; a `while` and a measure to prove are no plainer.
    for _ in 0..request.steps {
        if left == 0 || (left < request.steps && !request.again) {
            break;
        }
        let count = run_once(machine, request, left)?;
        if count == 0 {
            break;
        }
        left = left.saturating_sub(count);
    }
    Ok(request.steps.saturating_sub(left))
}

// One run of at most so many steps.
fn run_once<H: Heap>(
    machine: &mut Machine<H>,
    request: &Request,
    most: u64,
) -> Result<u64, Refusal> {
    let Callee { class, name } = request.callee;
    Ok(
        machine
            .play(class, name, request.args.as_slice(), most)?
            .ran
            .count,
    )
}

fn bench_verify(rt: &HostRuntime, words: &mut Words) -> Result<(), Stop> {
    let (file, times) = file_and_count(rt, words)?;
    let mut set = Set::empty();
    read(file.as_slice(), &mut set).map_err(Refused::from)?;
    let mut accepted = Accepted::empty();
    let mut workspace = [0u16; WORKSPACE];
    let total = nanos_of(rt, times, || {
        verify(&set, &mut workspace, &mut accepted).map_err(Refused::from)
    })?;
    let count = times.saturating_mul(1000);
    println!(rt; "us-per-verification={}", Share { total, count })?;
    Ok(())
}

fn bench_read(rt: &HostRuntime, words: &mut Words) -> Result<(), Stop> {
    let (file, times) = file_and_count(rt, words)?;
    let mut set = Set::empty();
    let total = nanos_of(rt, times, || {
        read(file.as_slice(), &mut set).map_err(Refused::from)
    })?;
    let count = times.saturating_mul(1000);
    println!(rt; "us-per-read={}", Share { total, count })?;
    Ok(())
}

// The bytes of the file, and how often it is to be taken.
fn file_and_count(rt: &HostRuntime, words: &mut Words) -> Result<(Vec<u8>, u64), Stop> {
    let path = words.text()?;
    let times = count_of(words)?;
    words.end()?;
    Ok((fs::read(rt, path)?, times))
}

// A count, at least 1.
fn count_of(words: &mut Words) -> Result<u64, NotUnderstood> {
    match words.parse::<u64>()? {
        0 => Err(NotUnderstood),
        n => Ok(n),
    }
}

// How many nanoseconds the work takes so many times.
fn nanos_of<F: FnMut() -> Result<(), Refused>>(
    rt: &HostRuntime,
    times: u64,
    mut work: F,
) -> Result<u64, Stop>
    requires { F.IsAlwaysCallable work }
{
    let start = Instant::now(rt)?;
    for _ in 0..times {
        work()?;
    }
    nanos_since(rt, start)
}

fn nanos_since(rt: &HostRuntime, start: Instant) -> Result<u64, Stop> {
    let span = Instant::now(rt)?.saturating_duration_since(start);
    Ok(u64::try_from(span.as_nanos()).map_err(|_| anyhow!("the clock went too far"))?)
}

/// What each of so many has of the total, with three decimals.
#[derive(Clone, Copy)]
struct Share {
    total: u64,
    count: u64,
}

impl fmt::Display for Share {
    fn fmt<W: fmt::Write>(&self, f: &mut fmt::Formatter<W>) -> fmt::Result {
        let thousandths = u128::from(self.total) * 1000 / u128::from(self.count.max(1));
        let whole = thousandths / 1000;
        let part = thousandths % 1000;
        write!(f, "{whole}.{part:03}")
    }
}
