// A text that is put together from words and numbers.
use nq_model::Memory;
use std::alloc::Global;

/// A text that grows at its end.
#[derive(Drop)]
pub struct Page {
    pub alloc: Global,
    pub text: String,
}

impl Page {
    /// An empty text.
    pub fn new(alloc: Global) -> Page {
        Page {
            alloc,
            text: String::new(alloc),
        }
    }

    /// Puts words at the end.
    pub fn say(&mut self, words: &str) -> Result<(), Memory> {
        self.text.push_str(words)?;
        Ok(())
    }

    /// Puts a number at the end, with a word before it and one after it.
    pub fn number(&mut self, before: &str, number: u64, after: &str) -> Result<(), Memory> {
        let text = format!(in self.alloc; "{before}{number}{after}")?;
        self.say(text.as_str())
    }
}
