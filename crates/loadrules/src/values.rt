// Values as a person writes and reads them.
use crate::stop::NotUnderstood;
use heap::value::Value;
use std::fmt;
use std::str::FromStr;

/// A value: `unit`, `null`, `true`, `false`, an integer, or an address behind `@`.
#[derive(Clone, Copy)]
pub struct ValueWord(pub Value);

impl fmt::Display for ValueWord {
    fn fmt<W: fmt::Write>(&self, f: &mut fmt::Formatter<W>) -> fmt::Result {
        match self.0 {
            Value::Unit => write!(f, "unit"),
            Value::Null => write!(f, "null"),
            Value::Bool(b) => write!(f, "{b}"),
            Value::Int(z) => write!(f, "{z}"),
            Value::Addr(a) => write!(f, "@{a}"),
        }
    }
}

impl FromStr for ValueWord {
    type Err = NotUnderstood;

    fn from_str(word: &str) -> Result<ValueWord, NotUnderstood> {
        Ok(ValueWord(match word {
            "unit" => Value::Unit,
            "null" => Value::Null,
            "true" => Value::Bool(true),
            "false" => Value::Bool(false),
            _ => match word.strip_prefix("@") {
                Some(address) => Value::Addr(address.parse::<u16>()?),
                None => Value::Int(word.parse::<i32>()?),
            },
        }))
    }
}
