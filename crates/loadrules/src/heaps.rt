// The heap that a machine is made over, as words name it.
use crate::options::Words;
use crate::stop::NotUnderstood;
use heap::charge::ChargeLine;
use std::str::FromStr;

/// Which heap lies below all allowances.
#[derive(Clone, Copy)]
pub enum Base {
    Slot,
    Cell,
}

/// The allowances around a heap, the inner one first. No command takes more than two.
#[derive(Clone, Copy)]
pub enum Allowances {
    Without,
    One(ChargeLine),
    Two(ChargeLine, ChargeLine),
}

/// A heap under its allowances.
#[derive(Clone, Copy)]
pub struct HeapShape {
    pub base: Base,
    pub allowances: Allowances,
}

/// An allowance's line of three numbers with commas between them.
#[derive(Clone, Copy)]
pub struct LineWord(pub ChargeLine);

impl FromStr for Base {
    type Err = NotUnderstood;

    fn from_str(word: &str) -> Result<Base, NotUnderstood> {
        match word {
            "slot" => Ok(Base::Slot),
            "cell" => Ok(Base::Cell),
            _ => Err(NotUnderstood),
        }
    }
}

impl FromStr for LineWord {
    type Err = NotUnderstood;

    fn from_str(word: &str) -> Result<LineWord, NotUnderstood> {
        let (fixed, others) = word.split_once(',').ok_or(NotUnderstood)?;
        let (per_field, total) = others.split_once(',').ok_or(NotUnderstood)?;
        Ok(LineWord(line_of(fixed, per_field, total)?))
    }
}

// The line of three numbers.
fn line_of(fixed: &str, per_field: &str, total: &str) -> Result<ChargeLine, NotUnderstood> {
    Ok(ChargeLine {
        fixed: fixed.parse::<u16>()?,
        per_field: per_field.parse::<u16>()?,
        total: total.parse::<u16>()?,
    })
}

impl Allowances {
    // One allowance more, around those that stand.
    fn and(self, line: ChargeLine) -> Result<Allowances, NotUnderstood> {
        match self {
            Allowances::Without => Ok(Allowances::One(line)),
            Allowances::One(inner) => Ok(Allowances::Two(inner, line)),
            Allowances::Two(_, _) => Err(NotUnderstood),
        }
    }
}

impl HeapShape {
    /// A heap under no allowance.
    pub fn new(base: Base) -> HeapShape {
        HeapShape {
            base,
            allowances: Allowances::Without,
        }
    }

    /// `slot|cell [F P T] [F P T]`, and nothing behind it.
    pub fn parse(words: &mut Words) -> Result<HeapShape, NotUnderstood> {
        let mut shape = HeapShape::new(words.parse::<Base>()?);
        for _ in 0..2 {
            if let Some(fixed) = words.next() {
                shape.put_under(line_of(fixed, words.text()?, words.text()?)?)?;
            }
        }
        words.end()?;
        Ok(shape)
    }

    /// Puts the heap under one allowance more.
    pub fn put_under(&mut self, line: ChargeLine) -> Result<(), NotUnderstood> {
        self.allowances = self.allowances.and(line)?;
        Ok(())
    }
}
