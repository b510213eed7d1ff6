//! The word `graph`: what the members of a program's classes may lead to, as a picture.

use crate::answer::explained;
use crate::fault::ToolFault;
use crate::parted::places_first;
use crate::streams::{MOST_READ, input, program, write};
use class_graph::{GraphFormat, GraphPart, class_graph};
use diagnostics::read_places;
use std::alloc::{AllocError, Global};
use trace_tool::{LARGEST_INPUT, limits_of};

/// What the options of `graph` ask for.
#[derive(Drop)]
struct GraphArguments<'w> {
    form: GraphFormat,
    classes: Vec<&'w str>,
    from: Option<&'w str>,
    /// Whether the input's first text is the program's places in another text.
    has_places: bool,
}

/// The option whose value the next word is.
#[derive(Clone, Copy, Debug, PartialEq, Eq)]
enum GraphOption {
    Classes,
    From,
}

impl<'w> GraphArguments<'w> {
    /// The options that the words are; `None` where they are none.
    fn of(alloc: Global, words: &[&'w str]) -> Result<Option<GraphArguments<'w>>, AllocError> {
        let mut options = GraphArguments {
            form: GraphFormat::Dot,
            classes: Vec::new(alloc),
            from: None,
            has_places: false,
        };
        let mut awaited: Option<GraphOption> = None;
        for word in words {
            match awaited {
                Some(GraphOption::Classes) => {
                    for class in word.split(',') {
                        options.classes.push(class)?;
                    }
                    awaited = None;
                }
                Some(GraphOption::From) => {
                    options.from = Some(*word);
                    awaited = None;
                }
                None if *word == "--json" => options.form = GraphFormat::Json,
                None if *word == "--places" => options.has_places = true,
                None if *word == "--class" => awaited = Some(GraphOption::Classes),
                None if *word == "--from" => awaited = Some(GraphOption::From),
                None => return Ok(None),
            }
        }
        Ok(if awaited.is_none() {
            Some(options)
        } else {
            None
        })
    }
}

/// Draws the program on standard input, which may be a large one with `--wide`, as the options say. Its places in another text
/// may stand before it.
pub fn graph(rt: &HostRuntime, is_wide: bool, words: &[&str]) -> Result<(), ToolFault> {
    let alloc = rt.alloc();
    let limits = limits_of(is_wide);
    let Some(options) = GraphArguments::of(alloc, words)? else {
        return Err(ToolFault::Usage);
    };
    let texts = if options.has_places {
        input(rt, MOST_READ)?
    } else {
        program(rt, limits)?
    };
    if texts.len() > LARGEST_INPUT {
        return Err(ToolFault::TooLong);
    }
    let Some((placed, program)) = places_first(texts.as_slice(), options.has_places) else {
        return Err(ToolFault::Usage);
    };
    let places = read_places(alloc, placed)?;
    let told = if options.has_places {
        Some(&places)
    } else {
        None
    };
    let part = GraphPart {
        classes: options.classes.as_slice(),
        from: options.from,
    };
    match class_graph(alloc, limits, program, part, options.form, told) {
        Ok(text) => write(rt, text.as_str()),
        // Lines are told of the whole input, which places stand before.
        Err(fault) if options.has_places => Err(fault.into()),
        Err(fault) => Err(explained(rt, is_wide, program, fault.into())?),
    }
}
