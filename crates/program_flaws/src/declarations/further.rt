//! What is wrong with declarations behind the first one that refuses a program: what is wrong is taken out of the text, by blanks
//! in its place, and the rest loaded again.

use crate::declarations::flaws::told_flaw;
use crate::declarations::lost::Lost;
use crate::declarations::words::ReportedOffence;
use crate::places::ProgramPlaces;
use crate::source::ReadProgram;
use class_outlines::{Declaration, LoadFault, Member, Offence, Reason};
use diagnostics::Flaw;
use meta_objects::load;
use std::alloc::{AllocError, Global};
use texts::Symbol;

/// So many bytes are loaded again at most.
const MOST_LOADED: usize = 4194304;

/// A flaw behind the first one, with the number for which it alone would refuse the program.
#[derive(Drop)]
pub struct FurtherFlaw {
    pub number: u8,
    pub flaw: Flaw,
}

/// The flaws of declarations behind the first one for which this program doesn't load, so many at most, in the order in which they
/// would refuse it. What may be wrong only since something else was taken out is left out. None where the text is no program.
pub fn further_declaration_flaws(
    alloc: Global,
    text: &[u8],
    most: usize,
) -> Result<Vec<FurtherFlaw>, AllocError> {
    let mut flaws = Vec::new(alloc);
    let mut left = Vec::from_slice(alloc, text)?;
    let mut lost = Lost::new(alloc);
    let rounds = MOST_LOADED.checked_div(text.len()).unwrap_or(0);
    for round in 0..rounds {
        if flaws.len() >= most {
            break;
        }
        let Some(next) = next_flaw(alloc, left.as_slice(), &mut lost)? else {
            break;
        };
        let NextFlaw {
            further,
            follows,
            repair,
        } = next;
        if round > 0 && !follows {
            flaws.push(further)?;
        }
        match repair {
            Some(repair) => blank(&mut left, repair),
            None => break,
        }
    }
    Ok(flaws)
}

/// The first flaw of a text, and how to go on without it.
#[derive(Drop)]
struct NextFlaw {
    further: FurtherFlaw,
    /// Whether it may be there only since something else was taken out.
    follows: bool,
    repair: Option<Repair>,
}

/// What is taken out of a text: from one byte to another.
#[derive(Clone, Copy)]
struct Repair {
    begin: usize,
    end: usize,
}

/// Puts blanks in the place of these bytes, but for the ends of lines.
fn blank(text: &mut Vec<u8>, repair: Repair) {
    for at in repair.begin..repair.end {
        if let Some(byte) = text.get_mut(at)
            && *byte != b'\n'
        {
            *byte = b' ';
        }
    }
}

/// The first flaw of this text, from which this is lost; `None` where it has none that is known. What goes with it is lost then too.
fn next_flaw(alloc: Global, text: &[u8], lost: &mut Lost) -> Result<Option<NextFlaw>, AllocError> {
    let Some(read) = ReadProgram::of(alloc, text)? else {
        return Ok(None);
    };
    match load(alloc, &read.program) {
        Err(LoadFault::Offence(offence)) => offence_in(alloc, &read, &offence, lost),
        Err(LoadFault::Memory) => Err(AllocError),
        Ok(_) => Ok(None),
    }
}

/// The offence of what is read, as a flaw.
fn offence_in(
    alloc: Global,
    read: &ReadProgram,
    offence: &Offence,
    lost: &mut Lost,
) -> Result<Option<NextFlaw>, AllocError> {
    let Some(told) = ReportedOffence::of(alloc, read, offence.declaration, offence.name) else {
        return Ok(None);
    };
    let flaw = told_flaw(&told, offence)?;
    let follows = lost.explains(&told, &offence.reason)?;
    lost.add(&told, &offence.reason)?;
    Ok(Some(NextFlaw {
        further: FurtherFlaw {
            number: offence.number(),
            flaw,
        },
        follows,
        repair: repair_of(&read.places, offence, &told),
    }))
}

/// What to take out for this offence.
fn repair_of(places: &ProgramPlaces, offence: &Offence, told: &ReportedOffence) -> Option<Repair> {
    let (begin, end) = match (&offence.reason, offence.declaration) {
        // The base, with its colon.
        (Reason::NoBase(_), _) => (told.token.checked_sub(1)?, told.token),
        (Reason::BadNotify(_), _) => (
            told.token.checked_sub(1)?,
            places.next(told.token, Symbol::Close)?,
        ),
        (Reason::NoMember(_), Declaration::Member(_, Member::Slot(_))) => {
            work_around(places, offence.declaration, told)?
        }
        _ => (told.part.first, told.part.last),
    };
    Some(Repair {
        begin: places.token(begin)?.at,
        end: places.token(end)?.end,
    })
}

/// The statement of the slot that has the name, or where it has a block of its own the whole body; of a native what it is
/// declared to do.
fn work_around(
    places: &ProgramPlaces,
    slot: Declaration,
    told: &ReportedOffence,
) -> Option<(usize, usize)> {
    let before = if places.symbol(told.part.last) == Some(Symbol::Semicolon) {
        places.next(told.part.first, Symbol::Close)?
    } else {
        if let Some(statement) = places.statement_around(slot, told.token)
            && places.symbol(statement.last) == Some(Symbol::Semicolon)
        {
            return Some((statement.first, statement.last));
        }
        places.next(told.part.first, Symbol::OpenBrace)?
    };
    Some((before.checked_add(1)?, told.part.last.checked_sub(1)?))
}
