// The command: lists, checks and runs rule-set files.
#![tactic(auto)]

mod bench;
mod check;
mod desk;
mod faults;
mod heaps;
mod hex;
mod list;
mod listing;
mod lists;
mod look;
mod machines;
mod names;
mod options;
mod orders;
mod replies;
mod request;
mod run;
mod shell;
mod stop;
mod table;
mod values;
mod words;

use bench::bench;
use check::check_file;
use list::list_file;
use options::Words;
use run::run_file;
use shell::shell;
use std::process::ExitCode;
use std::{env, io};
use stop::Stop;
use table::table_file;

fn main(rt: HostRuntime) -> anyhow::Result<ExitCode> {
    match command(&rt) {
        Ok(()) => Ok(ExitCode::SUCCESS),
        Err(Stop::NotUnderstood) => {
            usage(&rt)?;
            Ok(ExitCode::SUCCESS)
        }
        Err(Stop::Refused(refused)) => {
            println!(rt; "{refused}")?;
            Ok(ExitCode::FAILURE)
        }
        Err(Stop::Failed(e)) => Err(e),
    }
}

// Runs the command that the arguments name.
fn command(rt: &HostRuntime) -> Result<(), Stop> {
    let given = env::args(rt)?.collect::<Vec<String>>(rt.alloc())?;
    let mut words = Words::new(given.as_slice());
    let _ = words.next();
    match words.text()? {
        "list" => list_file(rt, &mut words),
        "check" => check_file(rt, &mut words),
        "table" => table_file(rt, &mut words),
        "run" => run_file(rt, &mut words),
        "shell" => shell(rt, &mut words),
        "bench" => bench(rt, &mut words),
        _ => Err(Stop::NotUnderstood),
    }
}

fn usage(rt: &HostRuntime) -> io::Result<()> {
    println!(rt; "usage: loadrules COMMAND")?;
    println!(rt; "  list FILE               classes, methods and instructions of a rule-set file")?;
    println!(rt; "  check FILE              whether every method has a well-typing")?;
    println!(rt;
        "  table FILE CLASS NAME   the least well-typing of the method that the class sees"
    )?;
    println!(rt;
        "  run FILE CLASS NAME [VALUE...] [--heap slot|cell] [--allowance F,P,T]... [--steps N]"
    )?;
    println!(rt;
        "                          runs the method; values: unit null true false INTEGER"
    )?;
    println!(rt; "  shell [--prompt]        answers commands of standard input, one a line")?;
    println!(rt;
        "  bench run FILE CLASS NAME STEPS [VALUE...] [--heap ..] [--allowance ..]... [--again]"
    )?;
    println!(rt; "  bench verify FILE N | bench read FILE N")
}
