//! Where the parts of a program stand in its text: one table, made in one pass from the way of its reader, and asked by what a
//! program or its loading holds.

mod cursor;
mod modal;

use crate::places::cursor::TextCursor;
use crate::places::modal::modal_lines;
use basic_types::Name;
use class_lang::program_trail;
use class_outlines::{Declaration, Member};
use diagnostics::{TextPlace, placed_or_none, tokens_or_none};
use sqlite_items::Items;
use std::alloc::{AllocError, Global};
use texts::{PlacedToken, Symbol, Token, Word};
use token_reading::{Begun, Landmark, Trail};

/// Where a part stands: from its first token to its last one, by their numbers. A statement that has a block ends here with the
/// brace that opens it.
#[derive(Clone, Copy, Debug, PartialEq, Eq)]
pub struct Part {
    /// The place of its first byte.
    pub place: TextPlace,
    pub first: usize,
    pub last: usize,
}

/// Where a slot or native stands, and the statements of its body, in the order of the text.
#[derive(Drop)]
struct SlotParts {
    part: Part,
    statements: Vec<Part>,
}

/// Where a class stands, and its members of each sort, in their order.
#[derive(Drop)]
struct ClassParts {
    part: Part,
    properties: Vec<Part>,
    signals: Vec<Part>,
    slots: Vec<SlotParts>,
}

/// Where the parts of a program stand.
pub struct ProgramPlaces {
    tokens: Items<PlacedToken>,
    /// Which tokens are names.
    names: Vec<usize>,
    classes: Vec<ClassParts>,
    wires: Vec<Part>,
    owns: Vec<Part>,
    sites: Vec<Part>,
    modal_lines: Vec<usize>,
}

impl Drop for ProgramPlaces {
    fn drop(self) {
        let ProgramPlaces {
            tokens: _,
            names: _,
            classes: _,
            wires: _,
            owns: _,
            sites: _,
            modal_lines: _,
        } = self;
    }
}

impl ProgramPlaces {
    /// The places of the program that the text is.
    pub fn of(alloc: Global, text: &[u8]) -> Result<ProgramPlaces, AllocError> {
        let tokens = placed_or_none(alloc, text)?;
        let mut places = ProgramPlaces {
            names: names_among(alloc, tokens.as_slice())?,
            tokens,
            classes: Vec::new(alloc),
            wires: Vec::new(alloc),
            owns: Vec::new(alloc),
            sites: Vec::new(alloc),
            modal_lines: modal_lines(alloc, text)?,
        };
        let trail = trail_of(alloc, text)?;
        places.add_parts(alloc, text, trail.begun())?;
        Ok(places)
    }

    /// Adds the parts that begin so.
    fn add_parts(&mut self, alloc: Global, text: &[u8], begun: &[Begun]) -> Result<(), AllocError> {
        let mut cursor = TextCursor::new(text);
        for (number, part) in begun.iter().enumerate() {
            let behind = begun.get(number.saturating_add(1)..).unwrap_or(&[]);
            if let Some(token) = self.tokens.get(part.at) {
                let word = word_of(&token.token);
                let part = Part {
                    place: cursor.to(token.at),
                    first: part.at,
                    last: last_token(self.tokens.as_slice(), *part, behind),
                };
                self.add(alloc, word, part)?;
            }
        }
        Ok(())
    }

    /// Adds the part that begins with this word.
    fn add(&mut self, alloc: Global, word: Option<Word>, part: Part) -> Result<(), AllocError> {
        match word {
            Some(Word::Class) => self.classes.push(ClassParts {
                part,
                properties: Vec::new(alloc),
                signals: Vec::new(alloc),
                slots: Vec::new(alloc),
            })?,
            Some(Word::Wire) => self.wires.push(part)?,
            Some(Word::Owns) => self.owns.push(part)?,
            Some(Word::Binding) => self.sites.push(part)?,
            _ => {
                if let Some(class) = self.classes.last_mut() {
                    class.add(alloc, word, part)?;
                }
            }
        }
        Ok(())
    }

    /// Where the declaration stands.
    pub fn declared(&self, declaration: Declaration) -> Option<Part> {
        match declaration {
            Declaration::Class(number) => Some(self.classes.get(number)?.part),
            Declaration::Member(number, member) => {
                let class = self.classes.get(number)?;
                match member {
                    Member::Property(own) => class.properties.get(own).copied(),
                    Member::Signal(own) => class.signals.get(own).copied(),
                    Member::Slot(own) => Some(class.slots.get(own)?.part),
                }
            }
            Declaration::Wire(number) => self.wires.get(number).copied(),
            Declaration::Owns(number) => self.owns.get(number).copied(),
            Declaration::Site(number) => self.sites.get(number).copied(),
        }
    }

    /// The statements of the slot, in the order of the text, with those in its blocks and groups; none of anything else.
    fn statements(&self, declaration: Declaration) -> &[Part] {
        if let Declaration::Member(number, Member::Slot(own)) = declaration
            && let Some(class) = self.classes.get(number)
            && let Some(slot) = class.slots.get(own)
        {
            slot.statements.as_slice()
        } else {
            &[]
        }
    }

    /// The statement of this number in the body of the slot.
    pub fn statement(&self, declaration: Declaration, number: usize) -> Option<Part> {
        self.statements(declaration).get(number).copied()
    }

    /// The innermost statement of the slot that has the token.
    pub fn statement_around(&self, declaration: Declaration, token: usize) -> Option<Part> {
        let mut around = None;
        for statement in self.statements(declaration) {
            if statement.first <= token {
                around = Some(*statement);
            }
        }
        around
    }

    /// Whether the slot or native begins on a line that says that it runs an event loop.
    pub fn is_modal(&self, declaration: Declaration) -> bool {
        match (declaration, self.declared(declaration)) {
            (Declaration::Member(_, Member::Slot(_)), Some(part)) => {
                self.modal_lines.binary_search(&part.place.line).is_ok()
            }
            _ => false,
        }
    }

    /// The wire at this place among them.
    pub fn wire(&self, place: usize) -> Option<TextPlace> {
        Some(self.wires.get(place)?.place)
    }

    /// The binding at this place among them.
    pub fn site(&self, place: usize) -> Option<TextPlace> {
        Some(self.sites.get(place)?.place)
    }

    /// The name of this number, from 0, among those of the part, and its token: the part's own name, or an element of a path, of
    /// a type or of a signature.
    pub fn name(&self, part: Part, number: usize) -> Option<(usize, &Name)> {
        let before = match self.names.as_slice().binary_search(&part.first) {
            Ok(before) | Err(before) => before,
        };
        let token = *self.names.get(before.checked_add(number)?)?;
        match &self.tokens.get(token)?.token {
            Token::Name(name) => Some((token, name)),
            _ => None,
        }
    }

    /// The token of this number.
    pub fn token(&self, number: usize) -> Option<&PlacedToken> {
        self.tokens.get(number)
    }

    /// The symbol that the token of this number is, if it is one.
    pub fn symbol(&self, number: usize) -> Option<Symbol> {
        symbol_at(self.tokens.as_slice(), number)
    }

    /// The first token from this one on that is this symbol.
    pub fn next(&self, from: usize, symbol: Symbol) -> Option<usize> {
        (from..self.tokens.len()).find(|number| self.symbol(*number) == Some(symbol))
    }
}

impl ClassParts {
    /// Adds a member of the class, or a statement of its last slot, which begins with this word.
    fn add(&mut self, alloc: Global, word: Option<Word>, part: Part) -> Result<(), AllocError> {
        match word {
            Some(Word::Property) => self.properties.push(part)?,
            Some(Word::Signal) => self.signals.push(part)?,
            Some(Word::Slot | Word::Native) => self.slots.push(SlotParts {
                part,
                statements: Vec::new(alloc),
            })?,
            _ => {
                if let Some(slot) = self.slots.last_mut() {
                    slot.statements.push(part)?;
                }
            }
        }
        Ok(())
    }
}

/// The way of the reader through the text of a program, to whose end it comes unless a growth of memory was refused.
fn trail_of(alloc: Global, text: &[u8]) -> Result<Trail, AllocError> {
    let found = tokens_or_none(alloc, text)?;
    match program_trail(alloc, found.as_slice()) {
        Some(trail) if trail.is_whole() && trail.farthest().saturating_add(1) >= found.len() => {
            Ok(trail)
        }
        _ => Err(AllocError),
    }
}

/// Which of the tokens are names.
fn names_among(alloc: Global, tokens: &[PlacedToken]) -> Result<Vec<usize>, AllocError> {
    let mut names = Vec::new(alloc);
    for (number, placed) in tokens.iter().enumerate() {
        if let Token::Name(_) = &placed.token {
            names.push(number)?;
        }
    }
    Ok(names)
}

/// The word that the token is, if it is one.
fn word_of(token: &Token) -> Option<Word> {
    match token {
        Token::Word(word) => Some(*word),
        _ => None,
    }
}

/// The symbol that the token of this number is, if it is one.
fn symbol_at(tokens: &[PlacedToken], number: usize) -> Option<Symbol> {
    match &tokens.get(number)?.token {
        Token::Symbol(symbol) => Some(*symbol),
        _ => None,
    }
}

/// The last token of a part, in front of the parts that begin behind it.
fn last_token(tokens: &[PlacedToken], part: Begun, behind: &[Begun]) -> usize {
    if part.landmark == Landmark::Statement {
        return end_of_statement(tokens, part.at);
    }
    let next = behind.iter().find(|next: &&Begun| next.landmark == Landmark::Declaration
        || next.landmark == part.landmark);
    let (end, is_last) = match next {
        Some(next) => (next.at, next.landmark != part.landmark),
        None => (tokens.len(), part.landmark == Landmark::Member),
    };
    // Behind a class's last member stands the brace that closes the class.
    end.saturating_sub(if is_last { 2 } else { 1 })
}

/// The last token of the statement that begins with this one.
fn end_of_statement(tokens: &[PlacedToken], first: usize) -> usize {
    let end = (first..tokens.len()).find(|number| matches!(
        symbol_at(tokens, *number),
        Some(Symbol::Semicolon | Symbol::OpenBrace)
    ));
    end.unwrap_or(first)
}
