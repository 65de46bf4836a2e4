// Trusted types: Flag.
// The words after a command that has one option.
ghost use Rattle.std.specs.Prelude.{◌≡◌, IfOk, map};
ghost use Rattle.clap.specs.Words.{app_of};
ghost use Rattle.sl_words.specs.Words.{flag_words, flag_app, flag_word, name_of};

use clap::error::ErrorKind;
use clap::{Arg, ArgAction, Command};
use sl_machine::Memory;
use std::alloc::{AllocError, Global};
use std::convert::AsStr;

/// The option of a command.
#[derive(Clone, Copy, Debug, PartialEq, Eq)]
pub enum Flag {
    Trace,
    Input,
}

fn name_of(flag: Flag) -> &'static str
    ensures { result.now ≡ name_of flag }
{
    match flag {
        Flag::Trace => "trace",
        Flag::Input => "input",
    }
}

/// A command with this option and nothing else, not even help.
fn flag_command<'a>(alloc: Global, flag: Flag) -> Result<Command<'a>, AllocError>
    ensures { IfOk result (λ c. app_of c ≡ flag_app flag) }
{
    let argument = Arg::new(alloc, "flag")
        .long(name_of(flag))
        .action(ArgAction::SetTrue);
    Command::new(alloc, "command")
        .no_binary_name(true)
        .disable_help_flag(true)
        .arg(argument)
}

/// Whether the words hold the option, or none where they hold something else.
pub fn flag_words<S: AsStr>(alloc: Global, flag: Flag, words: &[S]) -> Result<Option<bool>, Memory>
    ensures { IfOk result (λ asked. asked ≡ flag_words (flag_word flag) (map S.text words.now)) }
{
    let command = flag_command(alloc, flag)?;
    match command.try_get_matches_from(words) {
        Ok(matches) => Ok(Some(matches.get_flag("flag"))),
        Err(error) => {
            if error.kind() == ErrorKind::OutOfMemory {
                Err(Memory)
            } else {
                Ok(None)
            }
        }
    }
}
