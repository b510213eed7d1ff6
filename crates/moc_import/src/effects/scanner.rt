//! A line, word by word.

/// What is left of a line.
#[derive(Drop)]
pub struct LineScanner<'e> {
    rest: &'e str,
}

impl<'e> LineScanner<'e> {
    /// The line without its comment.
    pub fn of(line: &'e str) -> LineScanner<'e> {
        let rest = match line.split_once("//") {
            Some((rest, _)) => rest,
            None => line,
        };
        LineScanner { rest }
    }

    /// Whether nothing but blanks is left.
    pub fn is_done(&self) -> bool {
        self.rest.trim_start().is_empty()
    }

    /// So many bytes are left.
    pub fn len(&self) -> usize {
        self.rest.len()
    }

    /// What is left.
    pub fn rest(&self) -> &'e str {
        self.rest
    }

    /// Takes the next word, up to a blank, a bracket or a comma. It has no letters where one of these stands next.
    pub fn word(&mut self) -> &'e str {
        let text = self.rest.trim_start();
        let word = text.split(ends_word).next().unwrap_or("");
        self.rest = text.strip_prefix(word).unwrap_or("");
        word
    }

    /// Takes this symbol, if it stands next.
    pub fn eat(&mut self, symbol: char) -> bool {
        match self.rest.trim_start().strip_prefix(symbol) {
            Some(rest) => {
                self.rest = rest;
                true
            }
            None => false,
        }
    }

    /// Takes what stands before the next such symbol, and it.
    pub fn until(&mut self, symbol: char) -> Option<&'e str> {
        let (front, rest) = self.rest.split_once(symbol)?;
        self.rest = rest;
        Some(front)
    }
}

/// What stands first in a text, up to a blank.
pub fn first_word(text: &str) -> &str {
    text.split_whitespace().next().unwrap_or("")
}

fn ends_word(letter: char) -> bool {
    letter.is_whitespace() || matches!(letter, '(' | ')' | ',')
}
