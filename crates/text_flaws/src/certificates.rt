//! What is wrong with a line of a certificate, or of a settling one.

use crate::lines::line_flaw;
use crate::parts::whole;
use crate::unexpected::TokenizedText;
use certificate_lang::{Row, Version, read_node, read_set_items, read_setting, row_trail};
use diagnostics::{Flaw, tokens_or_none};
use std::alloc::{AllocError, Global};
use texts::{Token, number};
use token_reading::{Cursor, GREATEST, ParseFault, Trail};

/// Which certificate a text is to be.
#[derive(Clone, Copy, Debug, PartialEq, Eq)]
pub enum CertificateForm {
    /// One without steps.
    Plain,
    Settling,
}

impl CertificateForm {
    /// The version of this number, by what a node's line may have.
    fn version(self, number: u32) -> Option<Version> {
        match self {
            CertificateForm::Plain => Version::of(number),
            CertificateForm::Settling if number == 1 => Some(Version::Two),
            CertificateForm::Settling => None,
        }
    }

    /// The word with which its first line begins.
    pub fn word(self) -> &'static [u8] {
        match self {
            CertificateForm::Plain => b"certificate",
            CertificateForm::Settling => b"settling",
        }
    }

    /// The word with which the other one begins.
    pub fn other_word(self) -> &'static [u8] {
        match self {
            CertificateForm::Plain => CertificateForm::Settling.word(),
            CertificateForm::Settling => CertificateForm::Plain.word(),
        }
    }

    /// What several are called.
    fn name(self) -> &'static str {
        match self {
            CertificateForm::Plain => "certificates",
            CertificateForm::Settling => "settling certificates",
        }
    }

    /// Which versions there are.
    fn versions(self) -> &'static str {
        match self {
            CertificateForm::Plain => "write `certificate 2`; `certificate 1` is read too",
            CertificateForm::Settling => "write `settling 1`",
        }
    }

    /// How it begins.
    fn front(self) -> &'static str {
        match self {
            CertificateForm::Plain => "its first line is `certificate 2`, its second one `bound N`",
            CertificateForm::Settling => {
                "its first line is `settling 1`, its second one `bound B S`"
            }
        }
    }
}

/// What is wrong with a line of a certificate that has tokens and is to be such a row.
pub fn row_flaw(
    alloc: Global,
    form: CertificateForm,
    source: TokenizedText,
    row: Row,
) -> Result<Option<Flaw>, AllocError> {
    let trail = trail_of_row(alloc, form, source.text, row)?;
    match line_flaw(alloc, source, &trail, true)? {
        Some(flaw) => Ok(Some(flaw)),
        None if row == Row::Version && version_of(form, source).is_none() => {
            Ok(Some(no_version(alloc, form, source)?))
        }
        None => Ok(None),
    }
}

/// The way of the reader of certificates through the line.
fn trail_of_row(
    alloc: Global,
    form: CertificateForm,
    line: &[u8],
    row: Row,
) -> Result<Trail, AllocError> {
    let tokens = tokens_or_none(alloc, line)?;
    whole(match form {
        CertificateForm::Plain => row_trail(alloc, tokens.as_slice(), row),
        CertificateForm::Settling => settling_trail(alloc, tokens.as_slice(), row),
    })
}

/// The way of the reader of settling certificates through the tokens of a line.
fn settling_trail(alloc: Global, tokens: &[Token], row: Row) -> Option<Trail> {
    let mut cursor = Cursor::recording(alloc, tokens);
    // The line of a set has its round where that of a node has a dot.
    let is_set = matches!(tokens.get(1), Some(Token::Number(_)));
    let read = match row {
        Row::Version => take_setting(&mut cursor, b"settling"),
        Row::Bound => take_depth(&mut cursor),
        Row::Node(_) if is_set => take_set(&mut cursor),
        Row::Node(version) => take_line(&mut cursor, version),
    };
    if read.is_ok() {
        cursor.want_end();
    }
    cursor.into_trail()
}

/// `NAME number`
fn take_setting(cursor: &mut Cursor, name: &'static [u8]) -> Result<(), ParseFault> {
    let _number = read_setting(cursor, name)?;
    Ok(())
}

/// `bound B S`
fn take_depth(cursor: &mut Cursor) -> Result<(), ParseFault> {
    take_setting(cursor, b"bound")?;
    let _step = cursor.number(GREATEST)?;
    Ok(())
}

/// `round R NODE {NODE}`
fn take_set(cursor: &mut Cursor) -> Result<(), ParseFault> {
    take_setting(cursor, b"round")?;
    let _first = read_node(cursor)?;
    for _ in 0..cursor.rest().len() {
        cursor.want_end();
        if cursor.is_empty() {
            break;
        }
        let _node = read_node(cursor)?;
    }
    Ok(())
}

/// `NODE RANK STEP {ITEM}`
fn take_line(cursor: &mut Cursor, version: Version) -> Result<(), ParseFault> {
    let _node = read_node(cursor)?;
    let _rank = cursor.number(GREATEST)?;
    let _step = cursor.number(GREATEST)?;
    let _items = read_set_items(cursor, version)?;
    Ok(())
}

/// A first line that names no version of such certificates.
fn no_version(
    alloc: Global,
    form: CertificateForm,
    source: TokenizedText,
) -> Result<Flaw, AllocError> {
    let (number, name) = (source.shown(1), form.name());
    let sentence = format!(in alloc; "there is no version {number} of {name}")?;
    Flaw::with_advice(alloc, source.place(1), sentence, Some(form.versions()))
}

/// The version that the tokens of a certificate's first line name.
pub fn version_of(form: CertificateForm, source: TokenizedText) -> Option<Version> {
    match source.token(1)? {
        Token::Number(digits) => {
            let number = number(digits.as_slice(), u64::from(u32::MAX))?;
            form.version(u32::try_from(number).ok()?)
        }
        _ => None,
    }
}

/// A certificate that ends before its nodes.
pub fn ends_early(alloc: Global, form: CertificateForm, at: usize) -> Result<Flaw, AllocError> {
    let sentence = String::from_str(alloc, "the certificate ends too early")?;
    Flaw::with_advice(alloc, at, sentence, Some(form.front()))
}
