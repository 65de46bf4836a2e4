// Trusted types: Command.
// The command that words ask for.
ghost use Rattle.std.specs.Prelude.{◌≡◌, IfOk, IfSome, map, string_bytes, is_some, false};
ghost use Rattle.sl_words.specs.Words.{ends, step_of, run_of, bare, sample_of, poll_of};
ghost use Rattle.sl_words.specs.Words.{command_of, words_of};
ghost use Rattle.sl_words.specs.Words.{HasNumber};

use crate::flags::{Flag, flag_words};
use crate::poll::poll_words;
use crate::sample::sample_words;
use sl_machine::Memory;
use std::alloc::Global;

/// A command with its option.
#[derive(Clone, Copy, Debug, PartialEq, Eq)]
pub enum Command {
    /// `step`, and whether with `--trace`.
    Step(bool),
    /// `run`, and whether with `--trace`.
    Run(bool),
    /// `routes`.
    Routes,
    /// `sample` with its number, from 1 to 64, and whether with `--input`.
    Sample(u8, bool),
    /// `check`.
    Check,
    /// `balance`.
    Balance,
    /// `poll` with its two numbers, each up to 1,000,000: after how many entries the first unit is
    /// read, and after how many more each further one.
    Poll(u64, u64),
    /// `values`.
    Values,
}

fn step_words(alloc: Global, words: &[String]) -> Result<Option<Command>, Memory>
    ensures command { IfOk result (λ c. c ≡ step_of (map string_bytes words.now)) }
    ensures number { IfOk result (λ c. IfSome c HasNumber) }
{
    let trace = flag_words(alloc, Flag::Trace, words)?;
    Ok(trace.map(|trace| Command::Step(trace)))
}

fn run_words(alloc: Global, words: &[String]) -> Result<Option<Command>, Memory>
    ensures command { IfOk result (λ c. c ≡ run_of (map string_bytes words.now)) }
    ensures number { IfOk result (λ c. IfSome c HasNumber) }
{
    let trace = flag_words(alloc, Flag::Trace, words)?;
    Ok(trace.map(|trace| Command::Run(trace)))
}

/// `routes`, `check`, `balance` and `values` have no option: what is one elsewhere is refused.
#[tactic(auto, using(crate::proofs::RouteLemmas::no_option))]
fn is_bare(alloc: Global, words: &[String]) -> Result<bool, Memory>
    ensures { IfOk result (λ fits. fits ≡ is_some (ends false (map string_bytes words.now))) }
{
    match flag_words(alloc, Flag::Trace, words)? {
        Some(asked) => Ok(!asked),
        None => Ok(false),
    }
}

fn bare_command(
    alloc: Global,
    words: &[String],
    command: Command,
) -> Result<Option<Command>, Memory>
    ensures command { IfOk result (λ c. c ≡ bare command (map string_bytes words.now)) }
    ensures number { HasNumber command → IfOk result (λ c. IfSome c HasNumber) }
{
    if is_bare(alloc, words)? {
        Ok(Some(command))
    } else {
        Ok(None)
    }
}

fn sample_command(alloc: Global, words: &[String]) -> Result<Option<Command>, Memory>
    ensures command { IfOk result (λ c. c ≡ sample_of (map string_bytes words.now)) }
    ensures number { IfOk result (λ c. IfSome c HasNumber) }
{
    match sample_words(alloc, words)? {
        Some((number, input)) => Ok(Some(Command::Sample(number, input))),
        None => Ok(None),
    }
}

fn poll_command(words: &[String]) -> Option<Command>
    ensures command { result ≡ poll_of (map string_bytes words.now) }
    ensures number { IfSome result HasNumber }
{
    match poll_words(words) {
        Some((start, gap)) => Some(Command::Poll(start, gap)),
        None => None,
    }
}

fn command_of(alloc: Global, name: &str, words: &[String]) -> Result<Option<Command>, Memory>
    ensures command { IfOk result (λ c. c ≡ command_of name.now (map string_bytes words.now)) }
    ensures number { IfOk result (λ c. IfSome c HasNumber) }
{
    if name == "step" {
        step_words(alloc, words)
    } else if name == "run" {
        run_words(alloc, words)
    } else if name == "routes" {
        bare_command(alloc, words, Command::Routes)
    } else if name == "sample" {
        sample_command(alloc, words)
    } else if name == "check" {
        bare_command(alloc, words, Command::Check)
    } else if name == "balance" {
        bare_command(alloc, words, Command::Balance)
    } else if name == "poll" {
        Ok(poll_command(words))
    } else if name == "values" {
        bare_command(alloc, words, Command::Values)
    } else {
        Ok(None)
    }
}

/// The command that the words of the command line, without the program's name, ask for, or none
/// where they are no spelling of one.
pub fn words_of(alloc: Global, words: &[String]) -> Result<Option<Command>, Memory>
    ensures command { IfOk result (λ c. c ≡ words_of (map string_bytes words.now)) }
    ensures number { IfOk result (λ c. IfSome c HasNumber) }
{
    match words {
        [] => Ok(None),
        [name, others @ ..] => command_of(alloc, name.as_str(), others),
    }
}
