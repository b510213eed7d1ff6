//! The word `view`: a trace as lines for a terminal, as a sequence diagram, or as a page.

use crate::fault::ToolFault;
use crate::parted::split_text;
use crate::streams::{input, write, write_bytes};
use diagnostics::push_printed_lines;
use std::alloc::{AllocError, Global};
use traces::{laid_out_trace, sequence_diagram, trace_page};

/// What a trace is shown as.
#[derive(Clone, Copy)]
enum ViewFormat {
    /// Lines for a terminal.
    Lines {
        /// Whether they are coloured.
        colours: bool,
    },
    /// A sequence diagram.
    Diagram,
    /// A page of HTML.
    Page,
}

/// Writes the trace on standard input as the words say.
pub fn view(rt: &HostRuntime, words: &[&str]) -> Result<(), ToolFault> {
    let Some(form) = wanted_form(words) else {
        return Err(ToolFault::Usage);
    };
    let input = input(rt, u64::MAX)?;
    show(rt, form, input.as_slice())
}

/// What the words ask for; `None` for others.
fn wanted_form(words: &[&str]) -> Option<ViewFormat> {
    match words {
        [word] if *word == "--plain" => Some(ViewFormat::Lines { colours: false }),
        [word] if *word == "--color" => Some(ViewFormat::Lines { colours: true }),
        [word] if *word == "--mermaid" => Some(ViewFormat::Diagram),
        [word] if *word == "--html" => Some(ViewFormat::Page),
        _ => None,
    }
}

/// Writes the trace in this form. Of a page and of lines its script may follow.
fn show(rt: &HostRuntime, form: ViewFormat, input: &[u8]) -> Result<(), ToolFault> {
    let alloc: Global = rt.alloc();
    let (trace, script) = split_text(input).unwrap_or((input, &[]));
    match form {
        ViewFormat::Lines { colours } => {
            let (trace, script) = (printed(alloc, trace)?, printed(alloc, script)?);
            let lines = laid_out_trace(alloc, trace.as_bytes(), script.as_bytes(), colours)?;
            write_bytes(rt, lines.as_slice())
        }
        ViewFormat::Diagram => {
            let diagram = sequence_diagram(alloc, input)?;
            write(rt, diagram.as_str())
        }
        ViewFormat::Page => {
            let (trace, script) = (printed(alloc, trace)?, printed(alloc, script)?);
            let page = trace_page(alloc, trace.as_bytes(), script.as_bytes())?;
            write(rt, page.as_str())
        }
    }
}

/// The lines of a text, as a person is shown them.
fn printed(alloc: Global, text: &[u8]) -> Result<String, AllocError> {
    let mut lines = String::new(alloc);
    push_printed_lines(&mut lines, text)?;
    Ok(lines)
}
