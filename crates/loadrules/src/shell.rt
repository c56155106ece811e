// `loadrules shell`: answers the commands of standard input, one a line, each by exactly one line.
use crate::desk::Desk;
use crate::faults::Brief;
use crate::options::Words;
use crate::orders::Order;
use crate::stop::Stop;
use std::alloc::{AllocError, Global};
use std::io;
use std::io::{BufRead, BufReader};
use std::string::String;
use std::vec::Vec;

/// Serves the lines of standard input.
pub fn shell(rt: &HostRuntime, words: &mut Words) -> Result<(), Stop> {
    let prompt = match words.next() {
        None => false,
        Some("--prompt") => true,
        Some(_) => return Err(Stop::NotUnderstood),
    };
    words.end()?;
    let mut session = Session {
        rt,
        desk: Desk::new(),
        prompt,
    };
    session.serve()
}

/// A shell at its desk. For people it prints help and prompts.
#[derive(Drop)]
struct Session<'a> {
    rt: &'a HostRuntime,
    desk: Desk,
    prompt: bool,
}

impl Session<'_> {
    fn serve(&mut self) -> Result<(), Stop> {
        let rt = self.rt;
        let alloc = rt.alloc();
        if self.prompt {
            print_help(rt)?;
        }
        self.print_prompt()?;
        for line in BufReader::new(alloc, rt.stdin())?.lines(alloc) {
            match line {
                Ok(text) => self.answer_line(text.as_str())?,
                Err(e) if e.kind() == io::ErrorKind::InvalidData => {
                    println!(rt; "error: not text")?
                }
                Err(e) => return Err(e.into()),
            }
            self.print_prompt()?;
        }
        Ok(())
    }

    // Blank lines and comments are passed over.
    fn answer_line(&mut self, text: &str) -> Result<(), Stop> {
        let rt = self.rt;
        let given = split(rt.alloc(), text)?;
        let mut words = Words::new(given.as_slice());
        let answered = match words.peek() {
            None => return Ok(()),
            Some(word) if word.starts_with("#") => return Ok(()),
            Some("help") if self.prompt => print_help(rt),
            Some(_) => self.answer(&mut words),
        };
        match answered {
            Err(Stop::NotUnderstood) => println!(rt; "error: {text}")?,
            Err(Stop::Refused(refused)) => println!(rt; "{}", Brief(refused))?,
            Err(Stop::Failed(e)) => return Err(Stop::Failed(e)),
            Ok(()) => {}
        }
        Ok(())
    }

    // Answers one command by one line; where it is not understood or refused, nothing is printed.
    fn answer(&mut self, words: &mut Words) -> Result<(), Stop> {
        let rt = self.rt;
        let desk = &mut self.desk;
        let mut rest = Words::new(words.left);
        match rest.next() {
            Some("heap") => desk.choose_heap(rt, &mut rest),
            Some("read") => desk.read(rt, &mut rest),
            Some("load") => desk.load(rt, &mut rest),
            Some("write") => desk.write(rt, &mut rest),
            Some("table") => desk.table(rt, &mut rest),
            Some("make") => desk.make(rt, &mut rest),
            _ => desk.carry_out(rt, &Order::parse(rt.alloc(), words)?),
        }
    }

    fn print_prompt(&self) -> Result<(), Stop> {
        if self.prompt {
            print!(self.rt; "> ")?;
        }
        Ok(())
    }
}

fn split(alloc: Global, text: &str) -> Result<Vec<String>, AllocError> {
    text.split_whitespace()
        .map(|word| String::from_str(alloc, word))
        .try_collect(alloc)
}

fn print_help(rt: &HostRuntime) -> Result<(), Stop> {
    println!(rt;
        "heap slot|cell [F P T] [F P T]   the heap of the next machine, under up to two allowances"
    )?;
    println!(rt;
        "read HEX | load HEX | write      a set from the bytes of a file, accepted or not, and back"
    )?;
    println!(rt;
        "table CLASS NAME                 the least well-typing, 33 numbers an instruction"
    )?;
    println!(rt; "make NUMBER                      a machine from the accepted set")?;
    println!(rt; "begin CLASS NAME VALUE...        values: unit null true false INTEGER @ADDRESS")?;
    println!(rt;
        "step | run N | end               answers: 0 stepped, 1 finished, 2 uncaught, 3 frames full"
    )?;
    println!(rt; "look | objects | use             frames, heap and charge lines")?;
    Ok(())
}
