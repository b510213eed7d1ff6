//! What is wrong with a command line, or with the number of its texts.

use command_lines::{LARGEST_INPUT, UsageFault};
use diagnostics::{PARTING, text_spans};
use std::alloc::{AllocError, Global};
use texts::{MOST_DEPTH, number, split_line};

/// The commands, as a person writes them.
const COMMANDS: &str =
    "commands, and the texts of their input, with a line `%%` between two of them:\n  meta                                a program\n  certify [--settling]                a program\n  check [--settling]                  a program, a certificate\n  run [--settling] [--steps M]        a program, a certificate, a script\n  run --unchecked N [--steps M]       a program, a script\nN is from 1 to 256, M from 1 to 9223372036854775807.\n";

/// Adds what is wrong with these words or with this input, and the list of the commands.
pub fn push_usage(
    text: &mut String,
    alloc: Global,
    words: &[&str],
    input: Option<&[u8]>,
    fault: UsageFault,
) -> Result<(), AllocError> {
    match fault {
        UsageFault::Words => {
            let reason = mistake(words);
            writeln!(text, "usage: {reason}")?;
        }
        UsageFault::TooLarge => writeln!(
            text,
            "usage: the texts of the input may have {LARGEST_INPUT} bytes together, and it has more"
        )?,
        UsageFault::Texts(wanted) => push_number(text, alloc, words, input, wanted)?,
    }
    text.push_str(COMMANDS)
}

/// Adds that the input has another number of texts.
fn push_number(
    text: &mut String,
    alloc: Global,
    words: &[&str],
    input: Option<&[u8]>,
    wanted: usize,
) -> Result<(), AllocError> {
    let Some(input) = input else {
        return writeln!(text, "usage: the command takes {wanted} texts");
    };
    let found = text_spans(alloc, input)?.len();
    writeln!(
        text,
        "usage: the command takes {wanted} texts, and the input has {found}"
    )?;
    if wanted == 3 && found == 2 && words.contains(&"run") {
        text.push_str(
            "`run` takes a program, its certificate and a script: without a certificate it is `run --unchecked 256`\n",
        )?;
    }
    match spoilt_parting(input) {
        Some(line) => writeln!(
            text,
            "<stdin>:{line}:1: error: a line `%%` with a carriage return or a blank beside it parts nothing: end it right behind `%%`"
        ),
        None => Ok(()),
    }
}

/// What is wrong with words that are no command.
fn mistake(words: &[&str]) -> &'static str {
    let Some((command, options)) = words.split_first() else {
        return "a command is wanted";
    };
    match *command {
        "meta" => "this command takes no further words",
        "certify" | "check" => "behind this command stands `--settling`, or nothing",
        "run" => mistake_in_run(options),
        "--help" | "-h" | "help" => "the commands are these",
        _ => "the first word is no command",
    }
}

/// What is wrong with the words behind `run`.
fn mistake_in_run(options: &[&str]) -> &'static str {
    match options.split_first() {
        Some((first, others)) if *first == "--settling" => mistake_in_steps(others),
        Some((first, others)) if *first == "--unchecked" => match others.split_first() {
            Some((depth, steps)) if is_number(depth, u64::from(MOST_DEPTH)) => mistake_in_steps(
                steps,
            ),
            _ => "behind `--unchecked` stands a number from 1 to 256",
        },
        _ => mistake_in_steps(options),
    }
}

/// What is wrong with the words that are to be `--steps M`.
fn mistake_in_steps(words: &[&str]) -> &'static str {
    match words {
        [option, _] if *option == "--steps" => {
            "behind `--steps` stands a number from 1 to 9223372036854775807"
        }
        _ => "the words stand in this order: `run`, `--settling` or `--unchecked N`, `--steps M`",
    }
}

/// Whether a word is a number from 1 to this one.
fn is_number(word: &str, most: u64) -> bool {
    number(word.as_bytes(), most).is_some_and(|number| number != 0)
}

/// The first line that is `%%` with blanks or carriage returns beside it, by its number, counted from 1.
fn spoilt_parting(input: &[u8]) -> Option<usize> {
    let mut left = input;
    let mut number = 0usize;
    while let Some((line, rest)) = split_line(left) {
        number = number.saturating_add(1);
        if line.len() > PARTING.len() && line.trim_ascii() == PARTING {
            return Some(number);
        }
        left = rest;
    }
    None
}
