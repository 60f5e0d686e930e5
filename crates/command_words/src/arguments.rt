//! The words behind the command's: options with their texts, and plain words, as `clap` tells them apart.
ghost use Rattle.std.specs.Prelude.{◌≡◌, map, None, Err, IfOk, option_map, string_bytes, false, ◌≢◌};
ghost use Rattle.command_words.specs.Arguments.{Parts, parts_of, is_option, plain_id, text_of};
ghost use Rattle.command_words.specs.Found.{HasParts, TellsParts, words_in};
ghost use Rattle.command_words.specs.inside.Apps.{bare_app, new_option, new_plain, words_app};
ghost use Rattle.clap.specs.Words.{app_of, rule_of};

use crate::words_error::WordsError;
use clap::error::ErrorKind;
use clap::{Arg, ArgAction, ArgMatches, Command as Clap};
use std::alloc::{AllocError, Global};

/// What the plain words are called for `clap`, so that no option may have this name.
const PLAIN: &str = "words";

/// Words that were told apart: options with their texts, and plain words.
#[derive(Drop)]
pub struct Arguments<'a> {
    found: ArgMatches<'a>,
}

impl<'a> Arguments<'a> {
    /// The plain words, in the order in which they stand; `None` where there are none.
    pub fn plain(&self) -> Option<&[&'a str]>
        ensures { (parts : Parts) → TellsParts self.now parts → words_in (option_map (λ s. map (λ w. w.now) s.now) result) ≡ parts.plain }
    {
        self.found.get_strs(PLAIN)
    }

    /// The text of an option, where it was given.
    pub fn text(&self, option: &str) -> Option<&'a str>
        requires { option.now ≢ plain_id }
        ensures { (parts : Parts) → TellsParts self.now parts → option_map (λ t. t.now) result ≡ text_of option.now parts }
    {
        self.found.get_str(option)
    }
}

/// Tells the words apart: an option is `--NAME TEXT` or `--NAME=TEXT`, of these names and each at most once; all words behind `--` are plain.
pub fn read_arguments<'a>(
    alloc: Global,
    options: &[&'a str],
    words: &'a [String],
) -> Result<Arguments<'a>, WordsError>
    requires { is_option (map (λ o. o.now) options.now) plain_id ≡ false }
    ensures ok { IfOk result (HasParts (parts_of (map (λ o. o.now) options.now) (map string_bytes words.entry.now))) }
    ensures usage { result ≡ Err WordsError.Usage → parts_of (map (λ o. o.now) options.now) (map string_bytes words.entry.now) ≡ None }
{
    let command = clap_command(alloc, options)?;
    match command.try_get_matches_from(words) {
        Ok(found) => Ok(Arguments { found }),
        Err(error) => {
            if error.kind() == ErrorKind::OutOfMemory {
                Err(WordsError::NoMemory)
            } else {
                Err(WordsError::Usage)
            }
        }
    }
}

/// The words as `clap` is to see them: an option for each name, and one list of plain words.
fn clap_command<'a>(alloc: Global, options: &[&'a str]) -> Result<Clap<'a>, AllocError>
    ensures { IfOk result (λ c. app_of c ≡ words_app (map (λ o. o.now) options.now)) }
{
    let mut command = bare_command(alloc);
    for name in options {
        command = command.arg(option(alloc, name))?;
    }
    command.arg(plain_words(alloc))
}

/// The option of a name, with one text.
fn option<'a>(alloc: Global, name: &'a str) -> Arg<'a>
    ensures rule { rule_of result ≡ new_option name.entry.now }
    ensures one { result.global ≡ false }
{
    Arg::new(alloc, name).long(name).action(ArgAction::Set)
}

/// The list of plain words.
fn plain_words<'a>(alloc: Global) -> Arg<'a>
    ensures rule { rule_of result ≡ new_plain }
    ensures one { result.global ≡ false }
{
    Arg::new(alloc, PLAIN).action(ArgAction::Append)
}

/// A command for `clap` without options, without the program's name among its words, and without help.
fn bare_command<'a>(alloc: Global) -> Clap<'a>
    ensures { app_of result ≡ bare_app }
{
    Clap::new(alloc, "xtc")
        .no_binary_name(true)
        .disable_help_flag(true)
        .disable_version_flag(true)
}
