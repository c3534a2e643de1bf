//! A text on its way.

use crate::names::FuncName;
use crate::refusal::TextRefusal;
use module_tree::limit::BYTE_LIMIT;
use std::alloc::Global;
use wtypes::{Limits, ValType};

/// A text on its way, the names of functions in it, and those that comments tell, in the order of the functions' numbers.
#[derive(Drop)]
pub(crate) struct Page<'m> {
    text: String,
    names: Vec<FuncName<'m>>,
    told: &'m [(u32, &'m str)],
    /// How many of these are told.
    count_told: usize,
}

impl<'m> Page<'m> {
    /// Nothing is written yet.
    pub(crate) fn new(
        alloc: Global,
        names: Vec<FuncName<'m>>,
        told: &'m [(u32, &'m str)],
    ) -> Page<'m> {
        Page {
            text: String::new(alloc),
            names,
            told,
            count_told: 0,
        }
    }

    /// What is written.
    pub(crate) fn into_text(self) -> String {
        self.text
    }

    /// A piece of text.
    pub(crate) fn put(&mut self, piece: &str) -> Result<(), TextRefusal> {
        if piece.len() > BYTE_LIMIT.saturating_sub(self.text.len()) {
            return Err(TextRefusal::TooLong);
        }
        self.text.push_str(piece)?;
        Ok(())
    }

    /// A character of ASCII.
    pub(crate) fn put_ascii(&mut self, character: u8) -> Result<(), TextRefusal> {
        if self.text.len() >= BYTE_LIMIT {
            return Err(TextRefusal::TooLong);
        }
        self.text.push(character as char)?;
        Ok(())
    }

    /// A word of ASCII.
    pub(crate) fn put_word(&mut self, word: &[u8]) -> Result<(), TextRefusal> {
        for character in word {
            self.put_ascii(*character)?;
        }
        Ok(())
    }

    /// A number in decimal.
    pub(crate) fn put_number(&mut self, number: u32) -> Result<(), TextRefusal> {
        self.put_signed(number as i64)
    }

    /// A number in decimal, with its sign where it is below 0.
    pub(crate) fn put_signed(&mut self, number: i64) -> Result<(), TextRefusal> {
        let digits = number.to_string(*self.text.allocator())?;
        self.put(digits.as_str())
    }

    /// The beginning of the next line, at this depth.
    pub(crate) fn next_line(&mut self, depth: usize) -> Result<(), TextRefusal> {
        self.put("\n")?;
        for _level in 0..depth {
            self.put("  ")?;
        }
        Ok(())
    }

    /// A comment behind a line: a word, if any, and a number.
    pub(crate) fn note(&mut self, word: &str, number: usize) -> Result<(), TextRefusal> {
        let digits = format!(in *self.text.allocator(); " ;; {word}{number}")?;
        self.put(digits.as_str())
    }

    /// The name that the comment behind this function tells, where it has one. Each function is asked for once, in the order of their numbers.
    pub(crate) fn told_name(&mut self, func: usize) -> Option<&'m str> {
        let told = self.told;
        let (number, name) = *told.get(self.count_told)?;
        if number as usize != func {
            return None;
        }
        self.count_told = self.count_told.saturating_add(1);
        Some(name)
    }

    /// A type.
    pub(crate) fn put_type(&mut self, value_type: ValType) -> Result<(), TextRefusal> {
        self.put(match value_type {
            ValType::I32 => "i32",
            ValType::I64 => "i64",
        })
    }

    /// A type in brackets, behind this word.
    pub(crate) fn put_typed(&mut self, word: &str, value_type: ValType) -> Result<(), TextRefusal> {
        self.put("(")?;
        self.put(word)?;
        self.put(" ")?;
        self.put_type(value_type)?;
        self.put(")")
    }

    /// Limits.
    pub(crate) fn put_limits(&mut self, limits: Limits) -> Result<(), TextRefusal> {
        self.put_number(limits.min)?;
        if let Some(max) = limits.max {
            self.put(" ")?;
            self.put_number(max)?;
        }
        Ok(())
    }

    /// The name of a function, with a space in front, where it has one.
    fn put_named(&mut self, name: FuncName<'m>) -> Result<bool, TextRefusal> {
        match name {
            FuncName::Unnamed => Ok(false),
            FuncName::Exported(name) => {
                self.put(" $")?;
                self.put(name)?;
                Ok(true)
            }
            FuncName::Imported(from_module, name) => {
                self.put(" $")?;
                self.put(from_module)?;
                self.put(".")?;
                self.put(name)?;
                Ok(true)
            }
        }
    }

    /// The name of the function of this number.
    fn name_of(&self, func: usize) -> FuncName<'m> {
        match self.names.get(func) {
            Some(name) => *name,
            None => FuncName::Unnamed,
        }
    }

    /// The name that a function is given, where it has one, with a space in front.
    pub(crate) fn put_given_name(&mut self, func: usize) -> Result<(), TextRefusal> {
        let _is_named = self.put_named(self.name_of(func))?;
        Ok(())
    }

    /// A function, by its name or its number, with a space in front.
    pub(crate) fn put_func(&mut self, func: u32) -> Result<(), TextRefusal> {
        if self.put_named(self.name_of(func as usize))? {
            return Ok(());
        }
        self.put(" ")?;
        self.put_number(func)
    }
}
