//! Literals, and the numbers in them.

ghost use Rattle.std.specs.Prelude.{◌≡◌, ◌<◌, ◌≤◌, ◌-ℤ◌, pos, length, IfOk, OnOk};
ghost use Rattle.token_reading.specs.code.Literals.{ReadsUnsigned};
ghost use Rattle.token_reading.specs.Literals.{deepest, spell_literal, tree_of_literal};
ghost use Rattle.texts.specs.code.Numerals.{ValueUpTo};
ghost use Rattle.token_reading.specs.code.Numerals.{ReadsNumeral};
ghost use Rattle.token_reading.specs.code.Reading.{Reads, EndsAnywhere};

use crate::cursor::Cursor;
use crate::fault::ParseFault;
use crate::wanted::{LITERAL, Wanted};
use basic_types::{Text, Word};
use syntax_trees::Literal;
use texts::{Symbol, Token, value_of};

/// The greatest number that stands without a sign.
pub const GREATEST: u32 = 2147483647;

/// The greatest number that stands after a `-`.
const DEEPEST: u32 = 2147483648;

/// The literal that the token is by itself: a number of at most 2147483647, `true`, `false`, a text of at
/// most 255 bytes or `null`.
pub fn unsigned_literal(token: &Token) -> Result<Literal, ParseFault>
    ensures { ReadsUnsigned token.now result }
{
    match token {
        Token::Number(digits) => match value_of(digits.as_slice(), u64::from(GREATEST)) {
            Some(value) => Ok(Literal::Int(value as i32)),
            None => Err(ParseFault::Syntax),
        },
        Token::Text(bytes) => match Text::sharing(bytes)? {
            Some(text) => Ok(Literal::Text(text)),
            None => Err(ParseFault::Syntax),
        },
        Token::Word(word) => match word {
            Word::True => Ok(Literal::Bool(true)),
            Word::False => Ok(Literal::Bool(false)),
            Word::Null => Ok(Literal::Null),
            _ => Err(ParseFault::Syntax),
        },
        _ => Err(ParseFault::Syntax),
    }
}

/// The number below 0 that is so far from it.
fn negated(number: u32) -> i32
    requires { number ≤ deepest }
    ensures { result ≡ pos 0 -ℤ pos number }
{
    (0 - i64::from(number)) as i32
}

impl<'a> Cursor<'a> {
    /// Takes the number that has to come next, which is at most `most`; leading zeros are allowed.
    ///
    /// `Syntax` where no number comes next or it is larger, and only there.
    pub fn number(&mut self, most: u32) -> Result<u32, ParseFault>
        ensures reads { ReadsNumeral most self.old result self.new }
        ensures fits { IfOk result (λ n. n ≤ most) }
        ensures shorter { OnOk result (length self.new < length self.old) }
    {
        match self.next_as(Wanted::Number(most))? {
            Token::Number(digits) => match value_of(digits.as_slice(), u64::from(most)) {
                Some(value) => Ok(value as u32),
                None => Err(ParseFault::Syntax),
            },
            _ => Err(ParseFault::Syntax),
        }
    }

    /// `["-"] number | "true" | "false" | text | "null"`, a number from -2147483648 to 2147483647 and a text of at most
    /// 255 bytes.
    ///
    /// `Syntax` where the tokens begin with no literal, and only there; `Memory` where a growth of memory was refused.
    pub fn literal(&mut self) -> Result<Literal, ParseFault>
        ensures reads { Reads spell_literal tree_of_literal EndsAnywhere self.old result self.new }
        ensures shorter { OnOk result (length self.new < length self.old) }
    {
        if self.eat(Symbol::Minus) {
            let depth = self.number(DEEPEST)?;
            return Ok(Literal::Int(negated(depth)));
        }
        let token = self.next_of(&LITERAL)?;
        let value = unsigned_literal(token)?;
        Ok(value)
    }
}
