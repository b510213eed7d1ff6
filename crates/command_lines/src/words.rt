//! The words of a command line.

ghost use Rattle.std.specs.Prelude.{◌≡◌, ◌↔◌, Some, ◌≤◌, ◌<◌, ◌^◌, [], ◌∷◌, map, codes};
ghost use Rattle.std.specs.Prelude.{IsTrue, IfSome, MatchOption};
ghost use Rattle.texts.specs.Limits.{most_depth};
ghost use Rattle.command_lines.specs.Words.{IsNumber, IsFirstNumber, IsLimit, IsRun, IsSettlingRun, IsUncheckedRun, IsCommand, IsLine};
ghost use Rattle.command_lines.specs.Words.{IsNoNumber, IsNoLimit, IsNoRun, IsNoSettlingRun, IsNoUncheckedRun, IsNoCommand, IsNoLine};
ghost use Rattle.command_lines.specs.Words.{BeginsOtherwise, BeginsWithNoNumber, IsWithinLimits};

use texts::MOST_DEPTH;

const LARGEST_STEPS: u64 = 9223372036854775807;

const DEFAULT_STEPS: u64 = 1000000;

/// A command of the program.
#[derive(Clone, Copy)]
pub enum Command {
    /// `meta`: the classes of a program are written.
    Meta,
    /// `certify`: a certificate is made for a program.
    Certify,
    /// `check`: a program is checked with its certificate.
    Check,
    /// `certify --settling`: a settling certificate is made for a program.
    CertifySettling,
    /// `check --settling`: a program is checked with its settling certificate.
    CheckSettling,
    /// `run [--steps M]`: a program runs on a script where its certificate is valid, with this limit of rules.
    Run(u64),
    /// `run --settling [--steps M]`: a program runs on a script where its settling certificate is valid, with this limit of
    /// rules.
    RunSettling(u64),
    /// `run --unchecked N [--steps M]`: a program runs on a script.
    RunUnchecked(Options),
}

impl Command {
    /// What the words say, if they are a command.
    pub fn of(words: &[&str]) -> Option<Command>
        ensures said { let said = map (λ w. w.now) words.now in
            MatchOption result (IsNoCommand said) (λ c. IsCommand said c) }
        ensures limits { IfSome result IsWithinLimits }
    {
        if is_only(words, "meta") {
            return Some(Command::Meta);
        }
        if is_only(words, "certify") {
            return Some(Command::Certify);
        }
        if is_only(words, "check") {
            return Some(Command::Check);
        }
        if is_settling(words, "certify") {
            return Some(Command::CertifySettling);
        }
        if is_settling(words, "check") {
            return Some(Command::CheckSettling);
        }
        if let Some(steps) = steps_of_run(words) {
            return Some(Command::Run(steps));
        }
        if let Some(steps) = steps_of_settling_run(words) {
            return Some(Command::RunSettling(steps));
        }
        let options = Options::of(words)?;
        Some(Command::RunUnchecked(options))
    }
}

/// The words of a command line.
#[derive(Clone, Copy)]
pub struct CommandLine {
    /// What is to be done.
    pub command: Command,
    /// Whether a program may be as large as one that a tool writes (`--wide`, in front of the command).
    pub is_wide: bool,
}

impl CommandLine {
    /// What the words say, if they are a command line: a command, or `--wide` and a command.
    pub fn of(words: &[&str]) -> Option<CommandLine>
        ensures said { let said = map (λ w. w.now) words.now in
            MatchOption result (IsNoLine said) (λ line. IsLine said line) }
        ensures limits { IfSome result (λ line. IsWithinLimits line.command) }
    {
        if let Some(rest) = after(words, "--wide") {
            let command = Command::of(rest)?;
            return Some(CommandLine {
                command,
                is_wide: true,
            });
        }
        let command = Command::of(words)?;
        Some(CommandLine {
            command,
            is_wide: false,
        })
    }
}

/// Whether there is this word and no other.
fn is_only(words: &[&str], word: &str) -> bool
    ensures { IsTrue result ↔ (map (λ w. w.now) words.now ≡ word.now ∷ []) }
{
    match after(words, word) {
        Some(rest) => are_over(rest),
        None => false,
    }
}

/// Whether there are this word and `--settling`, and no other.
fn is_settling(words: &[&str], word: &str) -> bool
    ensures { IsTrue result ↔ (map (λ w. w.now) words.now ≡ word.now ∷ codes "--settling" ∷ []) }
{
    match after(words, word) {
        Some(rest) => is_only(rest, "--settling"),
        None => false,
    }
}

/// The limit of rules in the words `run [--steps M]`, if they are those of a run with a certificate.
fn steps_of_run(words: &[&str]) -> Option<u64>
    ensures said { let said = map (λ w. w.now) words.now in
        MatchOption result (IsNoRun said) (λ steps. IsRun said steps) }
    ensures within { IfSome result (λ steps. (1 ≤ steps) × (steps < 2 ^ 63)) }
{
    let words = after(words, "run")?;
    limit(words)
}

/// The limit of rules in the words `run --settling [--steps M]`, if they are those of a run with a settling certificate.
fn steps_of_settling_run(words: &[&str]) -> Option<u64>
    ensures said { let said = map (λ w. w.now) words.now in
        MatchOption result (IsNoSettlingRun said) (λ steps. IsSettlingRun said steps) }
    ensures within { IfSome result (λ steps. (1 ≤ steps) × (steps < 2 ^ 63)) }
{
    let words = after(words, "run")?;
    let words = after(words, "--settling")?;
    limit(words)
}

/// How a run without a certificate is limited.
#[derive(Clone, Copy)]
pub struct Options {
    /// How many activations may nest.
    pub depth: usize,
    /// How many rules may be used.
    pub steps: u64,
}

impl Options {
    /// What the words `run --unchecked N [--steps M]` say, if they are those of a run without a
    /// certificate.
    pub fn of(words: &[&str]) -> Option<Options>
        ensures said { let said = map (λ w. w.now) words.now in
            MatchOption result (IsNoUncheckedRun said) (λ o. IsUncheckedRun said o.depth o.steps) }
        ensures depth { IfSome result (λ o. (1 ≤ o.depth) × (o.depth ≤ most_depth)) }
        ensures steps { IfSome result (λ o. (1 ≤ o.steps) × (o.steps < 2 ^ 63)) }
    {
        let words = after(words, "run")?;
        let words = after(words, "--unchecked")?;
        let (depth, words) = number(words, MOST_DEPTH as u64)?;
        let steps = limit(words)?;
        Some(Options {
            depth: depth as usize,
            steps,
        })
    }
}

/// The limit of steps that the last words give.
fn limit(words: &[&str]) -> Option<u64>
    ensures said { let said = map (λ w. w.now) words.now in
        MatchOption result (IsNoLimit said) (λ steps. IsLimit said steps) }
    ensures within { IfSome result (λ steps. (1 ≤ steps) × (steps < 2 ^ 63)) }
{
    if are_over(words) {
        return Some(DEFAULT_STEPS);
    }
    let words = after(words, "--steps")?;
    let (steps, words) = number(words, LARGEST_STEPS)?;
    if are_over(words) { Some(steps) } else { None }
}

/// Whether no word is left.
fn are_over(words: &[&str]) -> bool
    ensures { IsTrue result ↔ (map (λ w. w.now) words.now ≡ []) }
{
    words.is_empty()
}

/// The words after this one, if it comes first.
fn after<'a>(words: &'a [&'a str], word: &str) -> Option<&'a [&'a str]>
    ensures { let said = map (λ w. w.now) words.now in
        MatchOption result (BeginsOtherwise word.now said)
        (λ rest. said ≡ word.now ∷ map (λ w. w.now) rest.now) }
{
    let (first, rest) = words.split_first()?;
    if *first == word { Some(rest) } else { None }
}

/// The number that comes first, and the words after it.
fn number<'a>(words: &'a [&'a str], largest: u64) -> Option<(u64, &'a [&'a str])>
    ensures { let said = map (λ w. w.now) words.now in
        MatchOption result (BeginsWithNoNumber largest said)
        (λ r. IsFirstNumber largest said r.0 (map (λ w. w.now) r.1.now)) }
{
    let (word, rest) = words.split_first()?;
    let number = number_of(word, largest)?;
    Some((number, rest))
}

/// The number that a word writes.
fn number_of(word: &str, largest: u64) -> Option<u64>
    ensures { MatchOption result (IsNoNumber largest word.now) (λ n. IsNumber largest word.now n) }
{
    let number = texts::number(word.as_bytes(), largest)?;
    if number == 0 { None } else { Some(number) }
}
