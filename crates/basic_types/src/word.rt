//! Reserved words and their spellings.

ghost use Rattle.std.specs.Prelude.{◌≡◌};
ghost use Rattle.basic_types.specs.Words.{word_spelling, FindsWord};
ghost use Rattle.basic_types.specs.code.Words.{words_like, words_of_four, words_of_five, words_of_six, FindsAmong};

/// A reserved word, which is no name.
#[derive(Clone, Copy, Debug, PartialEq, Eq)]
pub enum Word {
    /// `class`
    Class,
    /// `property`
    Property,
    /// `signal`
    Signal,
    /// `slot`
    Slot,
    /// `native`
    Native,
    /// `wire`
    Wire,
    /// `owns`
    Owns,
    /// `binding`
    Binding,
    /// `notify`
    Notify,
    /// `reads`
    Reads,
    /// `emits`
    Emits,
    /// `sets`
    Sets,
    /// `set`
    Set,
    /// `emit`
    Emit,
    /// `call`
    Call,
    /// `if`
    If,
    /// `else`
    Else,
    /// `connect`
    Connect,
    /// `disconnect`
    Disconnect,
    /// `delete`
    Delete,
    /// `later`
    Later,
    /// `this`
    This,
    /// `true`
    True,
    /// `false`
    False,
    /// `null`
    Null,
    /// `const`
    Const,
    /// `auto`
    Auto,
    /// `direct`
    Direct,
    /// `queued`
    Queued,
    /// `unique`
    Unique,
    /// `single`
    Single,
}

impl Word {
    /// The reserved word with these letters, or `None` where they aren't those of one.
    #[inline(always)]
    pub fn of(letters: &[u8]) -> Option<Word>
        ensures { FindsWord letters.now result }
    {
        let (first, _) = letters.split_first()?;
        let words = words_like(*first, letters.len());
        if words.is_empty() {
            return None;
        }
        Word::among(words, letters)
    }

    /// The one of these words that has the letters, or `None` where none does.
    #[inline(never)]
    fn among(words: &[Word], letters: &[u8]) -> Option<Word>
        ensures { FindsAmong words.now letters.now result }
    {
        let mut left = words;
        while let Some((word, more)) = left.split_first() {
            if word.spelling() == letters {
                return Some(*word);
            }
            left = more;
        }
        None
    }

    /// Its letters.
    pub fn spelling(self) -> &'static [u8]
        ensures { result.now ≡ word_spelling self }
    {
        match self {
            Word::Class => b"class",
            Word::Property => b"property",
            Word::Signal => b"signal",
            Word::Slot => b"slot",
            Word::Native => b"native",
            Word::Wire => b"wire",
            Word::Owns => b"owns",
            Word::Binding => b"binding",
            Word::Notify => b"notify",
            Word::Reads => b"reads",
            Word::Emits => b"emits",
            Word::Sets => b"sets",
            Word::Set => b"set",
            Word::Emit => b"emit",
            Word::Call => b"call",
            Word::If => b"if",
            Word::Else => b"else",
            Word::Connect => b"connect",
            Word::Disconnect => b"disconnect",
            Word::Delete => b"delete",
            Word::Later => b"later",
            Word::This => b"this",
            Word::True => b"true",
            Word::False => b"false",
            Word::Null => b"null",
            Word::Const => b"const",
            Word::Auto => b"auto",
            Word::Direct => b"direct",
            Word::Queued => b"queued",
            Word::Unique => b"unique",
            Word::Single => b"single",
        }
    }
}

/// The reserved words that begin with the letter and have so many.
#[inline(always)]
fn words_like(letter: u8, length: usize) -> &'static [Word]
    ensures { result.now ≡ words_like letter length }
{
    match length {
        2 if letter == b'i' => &[Word::If],
        3 if letter == b's' => &[Word::Set],
        4 => words_of_four(letter),
        5 => words_of_five(letter),
        6 => words_of_six(letter),
        7 if letter == b'b' => &[Word::Binding],
        7 if letter == b'c' => &[Word::Connect],
        8 if letter == b'p' => &[Word::Property],
        10 if letter == b'd' => &[Word::Disconnect],
        _ => &[],
    }
}

/// The reserved words of four letters that begin with this one.
#[inline(always)]
fn words_of_four(letter: u8) -> &'static [Word]
    ensures { result.now ≡ words_of_four letter }
{
    match letter {
        b'a' => &[Word::Auto],
        b'c' => &[Word::Call],
        b'e' => &[Word::Emit, Word::Else],
        b'n' => &[Word::Null],
        b'o' => &[Word::Owns],
        b's' => &[Word::Slot, Word::Sets],
        b't' => &[Word::This, Word::True],
        b'w' => &[Word::Wire],
        _ => &[],
    }
}

/// The reserved words of five letters that begin with this one.
#[inline(always)]
fn words_of_five(letter: u8) -> &'static [Word]
    ensures { result.now ≡ words_of_five letter }
{
    match letter {
        b'c' => &[Word::Class, Word::Const],
        b'e' => &[Word::Emits],
        b'f' => &[Word::False],
        b'l' => &[Word::Later],
        b'r' => &[Word::Reads],
        _ => &[],
    }
}

/// The reserved words of six letters that begin with this one.
#[inline(always)]
fn words_of_six(letter: u8) -> &'static [Word]
    ensures { result.now ≡ words_of_six letter }
{
    match letter {
        b'd' => &[Word::Delete, Word::Direct],
        b'n' => &[Word::Native, Word::Notify],
        b'q' => &[Word::Queued],
        b's' => &[Word::Signal, Word::Single],
        b'u' => &[Word::Unique],
        _ => &[],
    }
}
