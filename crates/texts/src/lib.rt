//! Texts: their lines and tokens, how deep they nest, and the numbers in them.
#![tactic(auto)]

mod bytes;
mod depth;
mod interner;
mod lexer;
mod limits;
mod lines;
mod numeral;
mod placed;
mod symbol;
mod token;

pub use basic_types::Word;
pub use depth::nesting;
pub use lexer::{LexFault, Lexer, one_cut, tokens};
pub use limits::{MOST_BYTES, MOST_DEPTH};
pub use lines::{split_at_line, split_line};
pub use numeral::{number, value_of};
pub use placed::{PlaceFault, PlacedToken, placed_tokens};
pub use symbol::Symbol;
pub use token::Token;
