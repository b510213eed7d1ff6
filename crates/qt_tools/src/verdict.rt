//! The word `verdict`: all that is wrong with a program and its certificate.

use crate::accepted::{Judged, JudgingInput, judge};
use crate::fault::ToolFault;
use crate::parted::{first_text, places_first};
use crate::streams::{short_input, write};
use class_lang::Limits;
use diagnostics::{OtherPlaces, Printed, read_places};
use findings::{
    Edge, FileNames, FindingSeverity, LevelChange, Levels, Verdict, change_levels, edge_list,
    json_report, junit_report, read_edges, rules_report, sarif_report, text_report,
};
use std::alloc::{AllocError, Global};
use verdicts::Texts;

/// The exit status where a text is refused.
const REFUSED: u8 = 2;

/// How a verdict is reported.
#[derive(Clone, Copy, Debug, PartialEq, Eq)]
enum VerdictFormat {
    /// As lines.
    Text,
    /// As JSON.
    Json,
    /// As SARIF.
    Sarif,
    /// As JUnit's reports.
    Junit,
    /// Not at all: the list of the edges that can be accepted is written in its place.
    Edges,
    /// Not at all: the table of rules is written, and nothing is read.
    Rules,
}

/// The option whose value the next word is.
#[derive(Clone, Copy, Debug, PartialEq, Eq)]
enum VerdictOption {
    Program,
    Certificate,
    /// Names of rules, which are as grave as this, or off.
    Rules(Option<FindingSeverity>),
}

/// What the words say, with names by their places among the words.
#[derive(Drop)]
struct Said {
    form: VerdictFormat,
    /// Whether the input's last text is a list of accepted edges.
    has_list: bool,
    /// Whether warnings and notes on its edges are left out too.
    is_baseline: bool,
    /// Whether the input's first text is the program's places in another text.
    has_places: bool,
    program: Option<usize>,
    certificate: Option<usize>,
    changes: Vec<LevelChange>,
}

impl Said {
    /// What the words say.
    fn of(alloc: Global, words: &[&str]) -> Result<Said, ToolFault> {
        let mut said = Said {
            form: VerdictFormat::Text,
            has_list: false,
            is_baseline: false,
            has_places: false,
            program: None,
            certificate: None,
            changes: Vec::new(alloc),
        };
        let mut awaited: Option<VerdictOption> = None;
        for (place, word) in words.iter().enumerate() {
            awaited = match awaited {
                Some(option) => {
                    said.take_value(option, place, *word)?;
                    None
                }
                None => said.take_option(*word)?,
            };
        }
        match awaited {
            None => Ok(said),
            Some(_) => Err(ToolFault::Usage),
        }
    }

    /// Takes an option, and answers whether its value is the next word.
    fn take_option(&mut self, word: &str) -> Result<Option<VerdictOption>, ToolFault> {
        match word {
            "--json" => self.form = VerdictFormat::Json,
            "--sarif" => self.form = VerdictFormat::Sarif,
            "--junit" => self.form = VerdictFormat::Junit,
            "--rules" => self.form = VerdictFormat::Rules,
            "--accept-all" => self.form = VerdictFormat::Edges,
            "--places" => self.has_places = true,
            "--accept" => self.has_list = true,
            "--baseline" => {
                self.has_list = true;
                self.is_baseline = true;
            }
            "--program" => return Ok(Some(VerdictOption::Program)),
            "--certificate" => return Ok(Some(VerdictOption::Certificate)),
            "--error" => return Ok(Some(VerdictOption::Rules(Some(FindingSeverity::Error)))),
            "--warning" => return Ok(Some(VerdictOption::Rules(Some(FindingSeverity::Warning)))),
            "--off" => return Ok(Some(VerdictOption::Rules(None))),
            _ => return Err(ToolFault::Usage),
        }
        Ok(None)
    }

    /// Takes the value of an option, which is the word at this place.
    fn take_value(
        &mut self,
        option: VerdictOption,
        place: usize,
        word: &str,
    ) -> Result<(), ToolFault> {
        match option {
            VerdictOption::Program => self.program = Some(place),
            VerdictOption::Certificate => self.certificate = Some(place),
            VerdictOption::Rules(severity) => change_levels(&mut self.changes, word, severity)?,
        }
        Ok(())
    }
}

/// The word at this place, or another name where none is given.
fn name<'w>(given: &'w [Vec<u8>], place: Option<usize>, other: &'static [u8]) -> &'w [u8] {
    match place.and_then(|place: usize| given.get(place)) {
        Some(word) => word.as_slice(),
        None => other,
    }
}

/// Writes the verdict on the texts of standard input: the program's places in another text if the options say so, a program, its
/// certificate if one is given, and a list of accepted edges if the options say so. The program is read by these limits. The
/// words are given as bytes too.
pub fn tell_verdict(
    rt: &HostRuntime,
    limits: Limits,
    words: &[&str],
    given: &[Vec<u8>],
) -> Result<(), ToolFault> {
    let alloc = rt.alloc();
    let said = Said::of(alloc, words)?;
    if said.form == VerdictFormat::Rules {
        let rules = rules_report(alloc)?;
        return write(rt, rules.as_str());
    }
    let input = short_input(rt)?;
    tell_input(rt, limits, &said, given, input.as_slice())
}

/// Writes the verdict on the texts of this input.
fn tell_input(
    rt: &HostRuntime,
    limits: Limits,
    said: &Said,
    given: &[Vec<u8>],
    input: &[u8],
) -> Result<(), ToolFault> {
    let alloc = rt.alloc();
    let Some((placed, texts)) = places_first(input, said.has_places) else {
        return Err(ToolFault::Usage);
    };
    let places = read_places(alloc, placed)?;
    let judged = judge_texts(alloc, limits, said, texts)?;
    tell_placed(rt, said, given, &judged, &places)
}

/// Writes a verdict with the program's places in another text. The references get one lifetime here: the borrow checker takes
/// none that is only part of a local's for a struct.
fn tell_placed(
    rt: &HostRuntime,
    said: &Said,
    given: &[Vec<u8>],
    judged: &Judged,
    places: &OtherPlaces<'_>,
) -> Result<(), ToolFault> {
    tell_judged(rt, said, given, judged, places)
}

/// Writes a verdict as the words ask for it, with the program's places in another text.
fn tell_judged<'x>(
    rt: &HostRuntime,
    said: &Said,
    given: &'x [Vec<u8>],
    judged: &'x Judged,
    places: &'x OtherPlaces<'x>,
) -> Result<(), ToolFault> {
    let names = FileNames {
        program: name(given, said.program, b"program"),
        certificate: name(given, said.certificate, b"certificate"),
        certificate_lines: 0,
        places: Some(places),
    };
    if said.form == VerdictFormat::Edges {
        return write_edges(rt, &judged.found, names);
    }
    tell_absent(rt, judged.absent.as_slice());
    let text = report(rt.alloc(), &judged.found, said.form, names)?;
    write(rt, text.as_str())?;
    answer(judged.found.status)
}

/// The verdict on these texts, of which the program is read by these limits.
fn judge_texts(
    alloc: Global,
    limits: Limits,
    said: &Said,
    texts: &[u8],
) -> Result<Judged, ToolFault> {
    let Some(given) = InputTexts::of(texts, said.has_list) else {
        return Err(ToolFault::Usage);
    };
    let edges = read_edges(alloc, given.list)?;
    let asked = JudgingInput {
        limits,
        texts: given.texts,
        levels: Levels {
            changes: said.changes.as_slice(),
        },
        is_baseline: said.is_baseline,
    };
    let judged = judge(alloc, asked, edges)?;
    Ok(judged)
}

/// The texts of an input.
#[derive(Clone, Copy)]
struct InputTexts<'i> {
    texts: Texts<'i>,
    list: &'i [u8],
}

impl<'i> InputTexts<'i> {
    /// The texts that lines `%%` part; `None` where there are too many or too few.
    fn of(input: &'i [u8], has_list: bool) -> Option<InputTexts<'i>> {
        let (program, rest) = first_text(input);
        let (second, rest) = match rest {
            Some(rest) => {
                let (second, rest) = first_text(rest);
                (Some(second), rest)
            }
            None => (None, None),
        };
        let (certificate, list) = match (has_list, second, rest) {
            (false, certificate, None) => (certificate, None),
            (true, Some(list), None) => (None, Some(list)),
            (true, certificate, Some(rest)) => {
                let (list, rest) = first_text(rest);
                if rest.is_some() {
                    return None;
                }
                (certificate, Some(list))
            }
            _ => return None,
        };
        Some(InputTexts {
            texts: Texts {
                program,
                certificate,
            },
            list: list.unwrap_or(&[]),
        })
    }
}

/// The verdict in this form.
fn report(
    alloc: Global,
    found: &Verdict,
    form: VerdictFormat,
    names: FileNames<'_>,
) -> Result<String, AllocError> {
    match form {
        VerdictFormat::Json => json_report(alloc, found, names),
        VerdictFormat::Sarif => sarif_report(alloc, found, names),
        VerdictFormat::Junit => junit_report(alloc, found, names),
        VerdictFormat::Text | VerdictFormat::Edges | VerdictFormat::Rules => text_report(
            alloc, found, names,
        ),
    }
}

/// Writes the list of the edges that can be accepted.
fn write_edges(rt: &HostRuntime, found: &Verdict, names: FileNames<'_>) -> Result<(), ToolFault> {
    if found.status == REFUSED {
        return Err(ToolFault::Unjudged);
    }
    let lists = [found.edges.as_slice(), found.remarked.as_slice()];
    let text = edge_list(rt.alloc(), names.program, lists)?;
    write(rt, text.as_str())
}

/// What a verdict with this exit status ends with.
fn answer(status: u8) -> Result<(), ToolFault> {
    match status {
        0 => Ok(()),
        REFUSED => Err(ToolFault::Unjudged),
        _ => Err(ToolFault::Found),
    }
}

/// So many edges that accept nothing are told of.
const MOST_TOLD: usize = 100;

/// Tells on standard error which edges of the list accept nothing.
fn tell_absent(rt: &HostRuntime, absent: &[Edge]) {
    for edge in absent.iter().take(MOST_TOLD) {
        let edge = Printed(edge.text().as_bytes());
        eprintln!(rt; "note: a listed edge accepts nothing: `{edge}`").ok();
    }
    let more = absent.len().saturating_sub(MOST_TOLD);
    if more > 0 {
        eprintln!(rt; "note: {more} more listed edges accept nothing").ok();
    }
}
