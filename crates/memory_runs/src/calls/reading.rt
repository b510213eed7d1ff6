//! The calls that read texts.

use crate::once_or_twice;
use crate::trials::{CERTIFICATE, ReportBuffer, SCRIPT, SOURCE, TrialAnswer};
use certificate_lang::{CertificateFault, read_certificate};
use class_lang::{TextFault, read_program};
use meta_model::Meta;
use meta_objects::{FromProgram, MetaFault};
use script_lang::{ScriptFault, read_script};
use slot_lang::{BodyFault, LexFault, ParseFault, Token, nesting, parse_body, parse_expr, tokens};
use sqlite_items::Items;
use std::alloc::Global;
use syntax_trees::Program;

/// The body of a slot.
const BODY: &str = "{ set this.value = v; }";

const EXPRESSION: &str = "v + 1";

/// `tokens`.
pub fn program_tokens(alloc: Global, told: &mut ReportBuffer) -> TrialAnswer {
    match tokens(alloc, SOURCE.as_bytes()) {
        Ok(tokens) => {
            told.count("tokens ", tokens.len());
            TrialAnswer::Ample
        }
        Err(LexFault::Memory) => TrialAnswer::Memory,
        Err(LexFault::BadByte) => TrialAnswer::Other,
    }
}

fn tokens_of(alloc: Global, text: &str) -> Option<Items<Token>> {
    tokens(alloc, text.as_bytes()).ok()
}

/// `nesting`.
pub fn program_nesting(alloc: Global, told: &mut ReportBuffer) -> Option<TrialAnswer> {
    let tokens = tokens_of(alloc, SOURCE)?;
    told.flag("too deep ", nesting(tokens.as_slice()));
    Some(TrialAnswer::Ample)
}

/// `parse_body`.
pub fn body(alloc: Global, told: &mut ReportBuffer) -> Option<TrialAnswer> {
    let tokens = tokens_of(alloc, BODY)?;
    Some(once_or_twice!(tell_body(alloc, tokens.as_slice(), told), true))
}

fn tell_body(alloc: Global, tokens: &[Token], told: &mut ReportBuffer) -> TrialAnswer {
    match parse_body(alloc, tokens) {
        Ok(body) => {
            told.count("statements ", body.len());
            TrialAnswer::Ample
        }
        Err(BodyFault::Memory) => TrialAnswer::Memory,
        Err(_) => TrialAnswer::Other,
    }
}

/// `parse_expr`.
pub fn expression(alloc: Global, told: &mut ReportBuffer) -> Option<TrialAnswer> {
    let tokens = tokens_of(alloc, EXPRESSION)?;
    Some(once_or_twice!(tell_expression(alloc, tokens.as_slice(), told), true))
}

fn tell_expression(alloc: Global, tokens: &[Token], told: &mut ReportBuffer) -> TrialAnswer {
    match parse_expr(alloc, tokens) {
        Ok(_) => {
            told.bytes(b"an expression");
            TrialAnswer::Ample
        }
        Err(ParseFault::Memory) => TrialAnswer::Memory,
        Err(ParseFault::Syntax) => TrialAnswer::Other,
    }
}

/// `read_program`.
pub fn program(alloc: Global, told: &mut ReportBuffer) -> TrialAnswer {
    match read_program(alloc, SOURCE.as_bytes()) {
        Ok(program) => {
            told.count("classes ", program.classes.len());
            told.count(", wires ", program.wires.len());
            TrialAnswer::Ample
        }
        Err(TextFault::Memory) => TrialAnswer::Memory,
        Err(_) => TrialAnswer::Other,
    }
}

/// `Meta::build`.
pub fn meta_objects(alloc: Global, told: &mut ReportBuffer) -> Option<TrialAnswer> {
    let program = read_program(alloc, SOURCE.as_bytes()).ok()?;
    Some(once_or_twice!(tell_meta(alloc, &program, told), true))
}

fn tell_meta(alloc: Global, program: &Program, told: &mut ReportBuffer) -> TrialAnswer {
    match Meta::build(alloc, program) {
        Ok(meta) => {
            tell_classes(&meta, told);
            TrialAnswer::Ample
        }
        Err(MetaFault::Memory) => TrialAnswer::Memory,
        Err(_) => TrialAnswer::Other,
    }
}

/// Tells each class with its numbers of methods and properties.
fn tell_classes(meta: &Meta, told: &mut ReportBuffer) {
    for class in meta.classes() {
        told.name(&class.name);
        told.count(": methods ", class.methods.len());
        told.count(", properties ", class.properties.len());
        told.end();
    }
    told.count("wires ", meta.wires().len());
}

/// `read_script`.
pub fn script(alloc: Global, told: &mut ReportBuffer) -> TrialAnswer {
    match read_script(alloc, SCRIPT.as_bytes()) {
        Ok(events) => {
            told.count("events ", events.len());
            TrialAnswer::Ample
        }
        Err(ScriptFault::Memory) => TrialAnswer::Memory,
        Err(_) => TrialAnswer::Other,
    }
}

/// `read_certificate`.
pub fn certificate(alloc: Global, told: &mut ReportBuffer) -> TrialAnswer {
    match read_certificate(alloc, CERTIFICATE.as_bytes()) {
        Ok(certificate) => {
            told.number("bound ", certificate.bound as u64);
            told.count(", lines ", certificate.lines.len());
            TrialAnswer::Ample
        }
        Err(CertificateFault::Memory) => TrialAnswer::Memory,
        Err(CertificateFault::Format) => TrialAnswer::Other,
    }
}
