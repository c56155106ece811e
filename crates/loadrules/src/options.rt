// The words of a command, taken one by one.
ghost use Rattle.std.specs.Prelude.{◌<◌, ◌≤◌, length, IfSome};

use crate::stop::NotUnderstood;
use std::mem;
use std::str::FromStr;
use std::string::String;

/// Words that are taken from the front.
#[derive(Drop)]
pub struct Words<'a> {
    pub left: &'a [String],
}

impl<'a> Words<'a> {
    pub fn new(words: &'a [String]) -> Words<'a> {
        Words { left: words }
    }

    /// The next word, if there is one.
    pub fn next(&mut self) -> Option<&'a str>
        ensures taken { IfSome result (λ _. length self.new.left.now < length self.old.left.now) }
        ensures none_new { length self.new.left.now ≤ length self.old.left.now }
    {
        let (word, rest) = self.left.split_first()?;
        self.left = rest;
        Some(word.as_str())
    }

    /// The next word, where there has to be one.
    pub fn text(&mut self) -> Result<&'a str, NotUnderstood>
        ensures { length self.new.left.now ≤ length self.old.left.now }
    {
        self.next().ok_or(NotUnderstood)
    }

    /// The value that the next word writes.
    pub fn parse<T: FromStr>(&mut self) -> Result<T, NotUnderstood>
    where
        T::Err: Drop,
        ensures { length self.new.left.now ≤ length self.old.left.now }
    {
        self.text()?.parse::<T>().map_err(|_| NotUnderstood)
    }

    /// The next word, which stays.
    pub fn peek(&self) -> Option<&'a str> {
        self.left.first().map(|word| word.as_str())
    }

    /// All words have to be taken.
    pub fn end(&self) -> Result<(), NotUnderstood> {
        self.left.is_empty().then_some(()).ok_or(NotUnderstood)
    }

    /// Takes all words that are left.
    pub fn all(&mut self) -> &'a [String] {
        mem::replace(&mut self.left, &[])
    }
}
