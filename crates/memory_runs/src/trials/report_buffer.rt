//! What calls answer and stores hold, as a text.

use basic_types::{Name, QType, Sig, Value};
use std::alloc::{AllocError, Global};
use std::fmt::Debug;
use std::io::Write;
use std::str;

/// How many bytes there is room for.
const ROOM: usize = 4096;

/// A text whose room is there from the beginning, so that no memory is asked for when something is reported.
#[derive(Drop)]
pub struct ReportBuffer {
    pub text: Vec<u8>,
}

impl ReportBuffer {
    /// Nothing is reported yet.
    pub fn new(alloc: Global) -> Result<ReportBuffer, AllocError> {
        let text = Vec::with_capacity(alloc, ROOM)?;
        Ok(ReportBuffer { text })
    }

    /// Whether both are one text.
    pub fn is_same(&self, other: &ReportBuffer) -> bool {
        self.text.as_slice() == other.text.as_slice()
    }

    /// The text.
    pub fn as_str(&self) -> &str {
        str::from_utf8(self.text.as_slice()).unwrap_or("no text\n")
    }

    /// Tells bytes.
    pub fn bytes(&mut self, bytes: &[u8]) {
        let _ = self.text.extend_from_slice(bytes);
    }

    /// Tells words and behind them a number.
    pub fn number(&mut self, words: &str, number: u64) {
        let _ = write!(self.text, "{words}{number}");
    }

    /// Tells words and behind them how many there are.
    pub fn count(&mut self, words: &str, count: usize) {
        self.number(words, count as u64);
    }

    /// Ends a line.
    pub fn end(&mut self) {
        self.bytes(b"\n");
    }

    /// Tells words and behind them whether something holds.
    pub fn flag(&mut self, words: &str, holds: bool) {
        let _ = write!(self.text, "{words}{holds}");
    }

    /// Tells words and behind them what is shown of something.
    pub fn debug(&mut self, words: &str, shown: &impl Debug) {
        let _ = write!(self.text, "{words}{shown:?}");
    }

    /// Tells a name.
    pub fn name(&mut self, name: &Name) {
        self.bytes(name.bytes());
    }

    /// Tells a type in its normal form.
    pub fn kind(&mut self, kind: &QType) {
        if kind.constant {
            self.bytes(b"const ");
        }
        self.name(&kind.name);
        if kind.pointer {
            self.bytes(b"*");
        }
    }

    /// Tells a signature: its name, and each type behind a blank.
    pub fn signature(&mut self, sig: &Sig) {
        self.name(&sig.name);
        for kind in sig.types.as_slice() {
            self.bytes(b" ");
            self.kind(kind);
        }
    }

    /// Tells a value; a reference is `#` and the object's number.
    pub fn value(&mut self, value: &Value) {
        match value {
            Value::Int(number) => {
                let _ = write!(self.text, "{number}");
            }
            Value::Bool(holds) => self.flag("", *holds),
            Value::Text(text) => {
                self.bytes(b"\"");
                self.bytes(text.bytes());
                self.bytes(b"\"");
            }
            Value::Ref(Some(object)) => self.count("#", object.number()),
            Value::Ref(None) => self.bytes(b"null"),
        }
    }

    /// Tells values, each behind a blank.
    pub fn values(&mut self, values: &[Value]) {
        for value in values {
            self.bytes(b" ");
            self.value(value);
        }
    }
}
