// A call of a machine with all that is handed in.
use heap::value::Value;
use jinja::program::{ClassNumber, Name};

/// A call. An end brings a ticket of any number.
#[derive(Clone, Copy)]
pub enum Call<'a> {
    Begin(ClassNumber, Name, &'a [Value]),
    Step,
    Run(u64),
    End(u32),
}
