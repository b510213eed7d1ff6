//! Which part of a refused event is wrong, and what may be meant.

use crate::reports::known::{
    KnownNames, MemberSort, member_names, push_listed, spelled, taken_types,
};
use diagnostics::{Printed, did_you_mean};
use program_flaws::class_names;
use std::alloc::{AllocError, Global};
use syntax_trees::Program;
use texts::PlacedToken;

/// What is wrong with an event.
#[derive(Drop)]
pub struct Blame {
    /// The token, by its number in the event's line, counted from 0; the first one where it is the whole event.
    pub token: usize,
    /// What to write instead, where that is known.
    pub advice: Option<String>,
}

impl Blame {
    /// The whole event.
    pub fn whole() -> Blame {
        Blame::at(0)
    }

    /// The token of this number.
    fn at(token: usize) -> Blame {
        Blame {
            token,
            advice: None,
        }
    }

    /// The token of this number, in whose place something else is to be written.
    fn advised(alloc: Global, token: usize, advice: &str) -> Result<Blame, AllocError> {
        Ok(Blame {
            token,
            advice: Some(String::from_str(alloc, advice)?),
        })
    }
}

/// Whether `blame_of` looks at the program's declarations where an event is refused for this reason.
pub fn needs_program(reason: u8) -> bool {
    matches!(reason, 31 | 33 | 44 | 45 | 46)
}

/// What is wrong with the event of this line and these tokens, which was refused for this reason where this was known.
pub fn blame_of<'e>(
    alloc: Global,
    reason: u8,
    line: &'e [u8],
    tokens: &'e [PlacedToken],
    known: &KnownNames<'_>,
    program: Option<&Program>,
) -> Result<Blame, AllocError> {
    let event = BlamedEvent {
        alloc,
        line,
        tokens,
    };
    match (reason, program) {
        (30 | 43, _) => Ok(Blame::at(1)),
        (31, Some(program)) => event.unknown_object(known, program),
        (32, _) => event.dead_object(known),
        (33, Some(program)) => event.unknown_class(program),
        (34, _) => event.unowned(known),
        (38, _) => event.uncovered(known),
        (42, _) => event.meant(event.loop_token(), known.loop_names()),
        (44, Some(program)) => event.unknown_site(program),
        (45, Some(program)) => event.unfit_value(known, program),
        (46, Some(program)) => event.unknown_member(known, program),
        _ => Ok(Blame::whole()),
    }
}

/// An event that was refused.
#[derive(Clone, Copy)]
struct BlamedEvent<'e> {
    alloc: Global,
    line: &'e [u8],
    tokens: &'e [PlacedToken],
}

impl<'e> BlamedEvent<'e> {
    fn spelled(&self, number: usize) -> &'e [u8] {
        spelled(self.line, self.tokens, number)
    }

    /// Whether the event begins with this word.
    fn is(&self, verb: &[u8]) -> bool {
        self.spelled(0) == verb
    }

    /// Whether the token of this number is one of these.
    fn is_among(&self, token: usize, names: &[&[u8]]) -> bool {
        names
            .iter()
            .any(|name: &&[u8]| *name == self.spelled(token))
    }

    /// The token of this number is wrong, and one of these may be meant.
    fn meant(&self, token: usize, names: &[&[u8]]) -> Result<Blame, AllocError> {
        Ok(Blame {
            token,
            advice: did_you_mean(self.alloc, self.spelled(token), names)?,
        })
    }

    /// The first token behind the next `)` from this one on.
    fn behind_signature(&self, from: usize) -> usize {
        let before = (from..self.tokens.len())
            .take_while(|at| self.spelled(*at) != b")".as_slice())
            .count();
        from.saturating_add(before).saturating_add(1)
    }

    /// What is written from the one token up to the other.
    fn part(&self, from: usize, to: usize) -> &'e [u8] {
        match (self.tokens.get(from), self.tokens.get(to.saturating_sub(1))) {
            (Some(first), Some(last)) => self.line.get(first.at..last.end).unwrap_or(&[]),
            _ => &[],
        }
    }

    /// The tokens that name objects.
    fn object_tokens(&self) -> Result<Vec<usize>, AllocError> {
        let mut found = Vec::new(self.alloc);
        let receiver = self.behind_signature(0);
        for at in 1..self.tokens.len() {
            let is_object = match self.spelled(0) {
                b"connect" | b"disconnect" => at == 1 || at == receiver,
                b"set" => at == 1 || at == 4,
                b"emit" | b"call" => at == 1 || at >= 5,
                b"bind" => at >= 2,
                b"adopt" => at <= 2,
                _ => at == 1,
            };
            if is_object && is_name(self.spelled(at)) {
                found.push(at)?;
            }
        }
        Ok(found)
    }

    /// The name of the object that is dead, where that is known.
    fn dead_object(&self, known: &KnownNames<'_>) -> Result<Blame, AllocError> {
        let objects = self.object_tokens()?;
        for at in objects.as_slice() {
            if known.is_deleted(self.spelled(*at)) {
                return Ok(Blame::at(*at));
            }
        }
        match objects.as_slice() {
            [only] => Ok(Blame::at(*only)),
            _ => Ok(Blame::whole()),
        }
    }

    /// The first name of an object that isn't there.
    fn unknown_object(
        &self,
        known: &KnownNames<'_>,
        program: &Program,
    ) -> Result<Blame, AllocError> {
        for at in self.object_tokens()? {
            let name = self.spelled(at);
            if known.class_of(name).is_some() {
                continue;
            }
            if let Some(word) = literal_for(name) {
                return Blame::advised(self.alloc, at, word);
            }
            let names = known.object_names()?;
            let blame = self.meant(at, names.as_slice())?;
            if blame.advice.is_some() {
                return Ok(blame);
            }
            let classes = class_names(self.alloc, program)?;
            return if self.is_among(at, classes.as_slice()) {
                Blame::advised(self.alloc, at, "this is a class: an event names an object")
            } else if at > 2 && self.sort().is_some() {
                let advice = "a value is a literal or an object, and a text stands between `\"`";
                Blame::advised(self.alloc, at, advice)
            } else {
                Ok(blame)
            };
        }
        Ok(Blame::whole())
    }

    /// The parent and its child, and what would let the one own the other.
    fn unowned(&self, known: &KnownNames<'_>) -> Result<Blame, AllocError> {
        let (Some(parent), Some(child)) = (
            known.class_of(self.spelled(1)),
            known.class_of(self.spelled(2)),
        ) else {
            return Ok(Blame::whole());
        };
        let (parent, child) = (Printed(parent), Printed(child));
        let advice = format!(in self.alloc; "declare `owns {parent} {child};` in the program")?;
        Blame::advised(self.alloc, 0, advice.as_str())
    }

    /// The connection, and the wire that would cover it, where one can.
    fn uncovered(&self, known: &KnownNames<'_>) -> Result<Blame, AllocError> {
        let receiver = self.behind_signature(0);
        let kind = self.behind_signature(receiver);
        let (Some(from), Some(to)) = (
            known.class_of(self.spelled(1)),
            known.class_of(self.spelled(receiver)),
        ) else {
            return Ok(Blame::whole());
        };
        if !self.fits(receiver, kind) {
            return Ok(Blame::whole());
        }
        let (from, to) = (Printed(from), Printed(to));
        let signal = Printed(self.part(2, receiver));
        let method = Printed(self.part(receiver.saturating_add(1), kind));
        let kind = Printed(self.spelled(kind));
        let advice = format!(in self.alloc;
            "declare `wire {from} {signal} -> {to} {method} {kind};` in the program"
        )?;
        Blame::advised(self.alloc, 0, advice.as_str())
    }

    /// Whether the types of the receiver's method, in front of the kind, are the first ones of the signal.
    fn fits(&self, receiver: usize, kind: usize) -> bool {
        let taken = kind.saturating_sub(receiver).saturating_sub(4);
        let is_same = (0..taken).all(|at: usize| {
            let given = self.spelled(at.saturating_add(4));
            given == self.spelled(at.saturating_add(receiver).saturating_add(3))
        });
        let behind = self.spelled(taken.saturating_add(4));
        is_same && (taken == 0 || behind == b",".as_slice() || behind == b")".as_slice())
    }

    /// The class that isn't there. In C++ the class stands before the object's name.
    fn unknown_class(&self, program: &Program) -> Result<Blame, AllocError> {
        let names = class_names(self.alloc, program)?;
        let blame = self.meant(2, names.as_slice())?;
        if blame.advice.is_some() || !self.is_among(1, names.as_slice()) {
            return Ok(blame);
        }
        let (class, object) = (Printed(self.spelled(1)), Printed(self.spelled(2)));
        let advice = format!(in self.alloc;
            "the object's name comes first, and then its class: write `new {object} {class}`"
        )?;
        Ok(Blame {
            token: 2,
            advice: Some(advice),
        })
    }

    /// The event loop's name.
    fn loop_token(&self) -> usize {
        if self.is(b"new") {
            3
        } else if self.is(b"move") {
            2
        } else {
            1
        }
    }

    /// The binding's name, if no binding has it, else what stands behind it.
    fn unknown_site(&self, program: &Program) -> Result<Blame, AllocError> {
        let mut names = Vec::new(self.alloc);
        for site in program.sites.as_slice() {
            if site.name.bytes() == self.spelled(1) {
                let mut classes = String::new(self.alloc);
                push_listed(&mut classes, site.class.bytes())?;
                for formal in site.formals.as_slice() {
                    push_listed(&mut classes, formal.class.bytes())?;
                }
                let advice = format!(in self.alloc; "behind its name stand objects of {classes}")?;
                return Blame::advised(self.alloc, 0, advice.as_str());
            }
            names.push(site.name.bytes())?;
        }
        self.meant(1, names.as_slice())
    }

    /// The value that isn't of its type, and which types are asked.
    fn unfit_value(&self, known: &KnownNames<'_>, program: &Program) -> Result<Blame, AllocError> {
        let token = self.value_token();
        let (Some(sort), Some(class)) = (self.sort(), known.class_of(self.spelled(1))) else {
            return Ok(Blame::at(token));
        };
        let member = self.spelled(3);
        let count = self.argument_count();
        let types = taken_types(self.alloc, program, class, sort, member, count)?;
        if types.is_empty() {
            return Ok(Blame::at(token));
        }
        let member = Printed(member);
        let advice = format!(in self.alloc; "`{member}` takes {types}")?;
        Blame::advised(self.alloc, token, advice.as_str())
    }

    /// How many arguments stand behind the member.
    fn argument_count(&self) -> usize {
        if self.spelled(5) == b")".as_slice() {
            return 0;
        }
        let commas = (5..self.tokens.len())
            .filter(|at: &usize| self.spelled(*at) == b",".as_slice())
            .count();
        commas.saturating_add(1)
    }

    /// The value that isn't of its type: that of a `set`, or the only argument.
    fn value_token(&self) -> usize {
        if self.is(b"set") {
            return 4;
        }
        // `emit o.s(v)` has seven tokens, and one more where the number has a sign.
        match self.tokens.len() {
            7 | 8 if self.spelled(6) != b",".as_slice() => 5,
            _ => 3,
        }
    }

    /// The sort of the member that the event names behind an object and a dot, if it names one.
    fn sort(&self) -> Option<MemberSort> {
        match self.spelled(0) {
            b"set" => Some(MemberSort::Property),
            b"emit" => Some(MemberSort::Signal),
            b"call" => Some(MemberSort::Slot),
            _ => None,
        }
    }

    /// The name of the member that isn't there.
    fn unknown_member(
        &self,
        known: &KnownNames<'_>,
        program: &Program,
    ) -> Result<Blame, AllocError> {
        if let Some(sort) = self.sort() {
            return self.no_member(known, program, 1, 3, sort);
        }
        let signals = self.members(known, program, 1, MemberSort::Signal)?;
        if self.is_among(2, signals.as_slice()) {
            let receiver = self.behind_signature(0);
            let method = receiver.saturating_add(1);
            return self.no_member(known, program, receiver, method, MemberSort::Method);
        }
        self.no_member(known, program, 1, 2, MemberSort::Signal)
    }

    /// The names of the members that the object has which the token names.
    fn members<'p>(
        &self,
        known: &KnownNames<'_>,
        program: &'p Program,
        object: usize,
        sort: MemberSort,
    ) -> Result<Vec<&'p [u8]>, AllocError> {
        let class = known
            .class_of(self.spelled(object))
            .unwrap_or(b"QObject".as_slice());
        member_names(self.alloc, program, class, sort)
    }

    /// The object that one token names has no member of this sort which the other one names, or it has other parameters.
    fn no_member(
        &self,
        known: &KnownNames<'_>,
        program: &Program,
        object: usize,
        member: usize,
        sort: MemberSort,
    ) -> Result<Blame, AllocError> {
        let names = self.members(known, program, object, sort)?;
        if self.is_among(member, names.as_slice()) {
            let advice = "it is declared with another number of parameters, or with other types";
            return Blame::advised(self.alloc, member, advice);
        }
        for (other, advice) in [
            (
                MemberSort::Property,
                "this is a property, which `set` writes",
            ),
            (MemberSort::Signal, "this is a signal, which `emit` emits"),
            (MemberSort::Slot, "this is a slot, which `call` calls"),
        ] {
            let others = self.members(known, program, object, other)?;
            if self.is_among(member, others.as_slice()) {
                return Blame::advised(self.alloc, member, advice);
            }
        }
        self.meant(member, names.as_slice())
    }
}

/// Whether a token that is spelled so names something.
fn is_name(word: &[u8]) -> bool {
    let begins = word
        .first()
        .is_some_and(|byte| byte.is_ascii_alphabetic() || *byte == b'_');
    begins && !matches!(word, b"true" | b"false" | b"null")
}

/// What to write in place of a word that is a literal elsewhere.
fn literal_for(word: &[u8]) -> Option<&'static str> {
    match word {
        b"nullptr" | b"NULL" | b"None" => Some("write `null`"),
        b"True" | b"TRUE" => Some("write `true`"),
        b"False" | b"FALSE" => Some("write `false`"),
        _ => None,
    }
}
