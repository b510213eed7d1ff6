//! Symbols and their spellings.

ghost use Rattle.std.specs.Prelude.{◌≡◌, [], ◌∷◌, IfSome};
ghost use Rattle.texts.specs.code.Splitting.{SplitsSymbol};
ghost use Rattle.texts.specs.code.Symbols.{double, single, SplitsDouble, SplitsSingle};
ghost use Rattle.texts.specs.Symbols.{spelling};

/// A token that is neither a word nor a literal.
#[derive(Clone, Copy, Debug, PartialEq, Eq)]
pub enum Symbol {
    /// `{`
    OpenBrace,
    /// `}`
    CloseBrace,
    /// `(`
    Open,
    /// `)`
    Close,
    /// `;`
    Semicolon,
    /// `,`
    Comma,
    /// `.`
    Dot,
    /// `:`
    Colon,
    /// `=`
    Assign,
    /// `==`
    Equal,
    /// `!=`
    Unequal,
    /// `<`
    Less,
    /// `<=`
    AtMost,
    /// `>`
    Greater,
    /// `>=`
    AtLeast,
    /// `+`
    Plus,
    /// `-`
    Minus,
    /// `*`
    Star,
    /// `!`
    Not,
    /// `&&`
    And,
    /// `||`
    Or,
    /// `->`
    Arrow,
    /// `&`
    Ampersand,
    /// `~`
    Tilde,
}

/// The longest symbol at the front, and what follows it.
#[inline(always)]
pub fn split_symbol(bytes: &[u8]) -> Option<(Symbol, &[u8])>
    ensures { SplitsSymbol bytes.now result }
{
    if let Some(found) = split_double(bytes) {
        return Some(found);
    }
    split_single(bytes)
}

/// The symbol of two bytes at the front, and what follows it.
#[inline(always)]
fn split_double(bytes: &[u8]) -> Option<(Symbol, &[u8])>
    ensures { SplitsDouble bytes.now result }
{
    let (first, after) = bytes.split_first()?;
    let (second, rest) = after.split_first()?;
    let symbol = double(*first, *second)?;
    Some((symbol, rest))
}

/// The symbol of one byte at the front, and what follows it.
#[inline(always)]
fn split_single(bytes: &[u8]) -> Option<(Symbol, &[u8])>
    ensures { SplitsSingle bytes.now result }
{
    let (first, rest) = bytes.split_first()?;
    let symbol = single(*first)?;
    Some((symbol, rest))
}

/// The symbol that the two bytes are.
#[inline(always)]
fn double(first: u8, second: u8) -> Option<Symbol>
    ensures value { result ≡ double first second }
    ensures spelled { IfSome result (λ symbol. spelling symbol ≡ first ∷ second ∷ []) }
{
    match (first, second) {
        (b'=', b'=') => Some(Symbol::Equal),
        (b'!', b'=') => Some(Symbol::Unequal),
        (b'<', b'=') => Some(Symbol::AtMost),
        (b'>', b'=') => Some(Symbol::AtLeast),
        (b'&', b'&') => Some(Symbol::And),
        (b'|', b'|') => Some(Symbol::Or),
        (b'-', b'>') => Some(Symbol::Arrow),
        _ => None,
    }
}

/// The symbol that the byte is.
#[inline(always)]
fn single(byte: u8) -> Option<Symbol>
    ensures value { result ≡ single byte }
    ensures spelled { IfSome result (λ symbol. spelling symbol ≡ byte ∷ []) }
{
    match byte {
        b'{' => Some(Symbol::OpenBrace),
        b'}' => Some(Symbol::CloseBrace),
        b'(' => Some(Symbol::Open),
        b')' => Some(Symbol::Close),
        b';' => Some(Symbol::Semicolon),
        b',' => Some(Symbol::Comma),
        b'.' => Some(Symbol::Dot),
        b':' => Some(Symbol::Colon),
        b'=' => Some(Symbol::Assign),
        b'<' => Some(Symbol::Less),
        b'>' => Some(Symbol::Greater),
        b'+' => Some(Symbol::Plus),
        b'-' => Some(Symbol::Minus),
        b'*' => Some(Symbol::Star),
        b'!' => Some(Symbol::Not),
        b'&' => Some(Symbol::Ampersand),
        b'~' => Some(Symbol::Tilde),
        _ => None,
    }
}
