// What is to be run: a method with its arguments, the heap and how far.
use crate::heaps::{Base, HeapShape, LineWord};
use crate::options::Words;
use crate::stop::{NotUnderstood, Stop};
use crate::values::ValueWord;
use heap::value::Value;
use jinja::program::{ClassNumber, Name};
use std::alloc::Global;
use std::vec::Vec;

/// The method that a class sees by a name.
#[derive(Clone, Copy)]
pub struct Callee {
    pub class: ClassNumber,
    pub name: Name,
}

/// A run as the words of a command ask for it.
#[derive(Drop)]
pub struct Request {
    pub callee: Callee,
    pub args: Vec<Value>,
    pub steps: u64,
    /// A run that is over is ended and begun again.
    pub again: bool,
    pub shape: HeapShape,
}

impl Callee {
    /// The class and the name that come next.
    pub fn parse(words: &mut Words) -> Result<Callee, NotUnderstood> {
        Ok(Callee {
            class: words.parse::<u8>()?,
            name: words.parse::<u8>()?,
        })
    }
}

impl Request {
    /// The run of a method that the words ask for, of so many steps where they say nothing else.
    pub fn parse(
        alloc: Global,
        words: &mut Words,
        callee: Callee,
        steps: u64,
    ) -> Result<Request, Stop> {
        let mut request = Request {
            callee,
            args: Vec::new(alloc),
            steps,
            again: false,
            shape: HeapShape::new(Base::Slot),
        };
        // Read by hand, which is plainer: -5 is a value here and no option, and all bad words have one answer.
        while let Some(word) = words.next() {
            match word {
                "--heap" => request.shape.base = words.parse::<Base>()?,
                "--allowance" => request.shape.put_under(words.parse::<LineWord>()?.0)?,
                "--steps" => request.steps = words.parse::<u64>()?,
                "--again" => request.again = true,
                _ => request.args.push(word.parse::<ValueWord>()?.0)?,
            }
        }
        Ok(request)
    }
}
