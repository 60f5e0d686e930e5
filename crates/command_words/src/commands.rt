//! The words of a command: its own word, then what it takes, with the options anywhere behind its own.
ghost use Rattle.std.specs.Prelude.{◌≡◌, ◌≤◌, ◌∷◌, map, None, Some, Err, IfOk, IfSome, option_map, string_bytes};
ghost use Rattle.command_words.specs.Arguments.{Parts, text_of};
ghost use Rattle.command_words.specs.Commands.{IsInRange, both, checkpoint_in, checkpoint_name, checkpoint_of, command_by, command_of, frames_in, frames_name, frames_of, meant, no_words, of_parts, only, seed_and_count, told, words_of_texts};
ghost use Rattle.command_words.specs.Found.{TellsParts};

use crate::arguments::{Arguments, read_arguments};
use crate::command::Command;
use crate::numbers::number_in;
use crate::words::Words;
use crate::words_error::WordsError;
use std::alloc::Global;

/// The options' names.
const FRAMES: &str = "frames";

const CHECKPOINT: &str = "checkpoint";

const OPTIONS: [&str; 2] = [FRAMES, CHECKPOINT];

const MOST_FRAMES: u32 = 65_536;

/// As many frames are meant where the words tell no number.
const USUAL_FRAMES: u32 = 256;

/// The most commits between two checkpoints.
const MOST_COMMITS: u32 = 1_000_000;

/// What the words after the program's name ask for.
pub fn read_words<'a>(alloc: Global, words: &'a Vec<String>) -> Result<Words<'a>, WordsError>
    ensures command { IfOk result (λ read. command_of words.entry.now.items ≡ Some (meant read.command)) }
    ensures frames { IfOk result (λ read. frames_of words.entry.now.items ≡ Some read.frames) }
    ensures checkpoint { IfOk result (λ read. checkpoint_of words.entry.now.items ≡ Some read.checkpoint) }
    ensures usage { result ≡ Err WordsError.Usage → command_of words.entry.now.items ≡ None }
    ensures ranges { IfOk result (λ read. IsInRange (meant read.command)) }
    ensures frames_range { IfOk result (λ read. (1 ≤ read.frames) × (read.frames ≤ 65536)) }
{
    let [word, rest @ ..] = words.as_slice() else {
        return Err(WordsError::Usage);
    };
    words_behind(alloc, word.as_str(), rest)
}

/// What a command's word and these words behind it ask for.
fn words_behind<'a>(
    alloc: Global,
    word: &'a str,
    rest: &'a [String],
) -> Result<Words<'a>, WordsError>
    ensures words { IfOk result (λ read. words_of_texts (word.entry.now ∷ map string_bytes rest.entry.now) ≡ Some (told read)) }
    ensures usage { result ≡ Err WordsError.Usage → words_of_texts (word.entry.now ∷ map string_bytes rest.entry.now) ≡ None }
    ensures ranges { IfOk result (λ read. IsInRange (meant read.command)) }
    ensures frames_range { IfOk result (λ read. (1 ≤ read.frames) × (read.frames ≤ 65536)) }
{
    let arguments = read_arguments(alloc, &OPTIONS, rest)?;
    match words_in(word, &arguments) {
        Some(read) => Ok(read),
        None => Err(WordsError::Usage),
    }
}

/// The command with this word and what was read behind it, and its options.
fn words_in<'a>(word: &'a str, arguments: &Arguments<'a>) -> Option<Words<'a>>
    ensures words { (parts : Parts) → TellsParts arguments.now parts → option_map told result ≡ of_parts word.entry.now parts }
    ensures ranges { IfSome result (λ read. IsInRange (meant read.command)) }
    ensures frames_range { IfSome result (λ read. (1 ≤ read.frames) × (read.frames ≤ 65536)) }
{
    let command = command_in(word, arguments)?;
    let frames = frames_in(arguments)?;
    let checkpoint = checkpoint_in(arguments)?;
    Some(Words {
        command,
        frames,
        checkpoint,
    })
}

/// The frames of the option, where it was given.
fn frames_in(arguments: &Arguments<'_>) -> Option<u32>
    ensures frames { (parts : Parts) → TellsParts arguments.now parts → result ≡ frames_in (text_of frames_name parts) }
    ensures range { IfSome result (λ frames. (1 ≤ frames) × (frames ≤ 65536)) }
{
    match arguments.text(FRAMES) {
        Some(text) => number_in(text, 1, MOST_FRAMES),
        None => Some(USUAL_FRAMES),
    }
}

/// How many commits lie between two checkpoints, by the option, where it was given.
fn checkpoint_in(arguments: &Arguments<'_>) -> Option<u32>
    ensures { (parts : Parts) → TellsParts arguments.now parts → result ≡ checkpoint_in (text_of checkpoint_name parts) }
{
    match arguments.text(CHECKPOINT) {
        Some(text) => number_in(text, 0, MOST_COMMITS),
        None => Some(0),
    }
}

/// The command with this word and the plain words behind it.
fn command_in<'a>(word: &'a str, arguments: &Arguments<'a>) -> Option<Command<'a>>
    ensures command { (parts : Parts) → TellsParts arguments.now parts → option_map meant result ≡ command_by word.entry.now parts.plain }
    ensures ranges { IfSome result (λ command. IsInRange (meant command)) }
{
    match arguments.plain() {
        Some(plain) => command_by(word, plain),
        None => command_by(word, &[]),
    }
}

/// The command with this word and these plain words behind it.
fn command_by<'a>(word: &'a str, plain: &[&'a str]) -> Option<Command<'a>>
    ensures command { option_map meant result ≡ command_by word.entry.now (map (λ w. w.now) plain.now) }
    ensures ranges { IfSome result (λ command. IsInRange (meant command)) }
{
    match word {
        "run" => no_words(plain, Command::Run),
        "workers" => no_words(plain, Command::Workers),
        "put" => Some(Command::Put(one_word(plain)?)),
        "get" => Some(Command::Get(one_word(plain)?)),
        "query" => {
            let (name, path) = two_words(plain)?;
            Some(Command::Query(name, path))
        }
        "gen" => seed_and_count(plain),
        _ => None,
    }
}

fn no_words<'a>(plain: &[&'a str], command: Command<'a>) -> Option<Command<'a>>
    requires ranges { IsInRange (meant command) }
    ensures ranges { IfSome result (λ command. IsInRange (meant command)) }
    ensures command { option_map meant result ≡ no_words (meant command.entry) (map (λ w. w.now) plain.now) }
{
    if plain.is_empty() {
        Some(command)
    } else {
        None
    }
}

fn one_word<'a>(plain: &[&'a str]) -> Option<&'a str>
    ensures { option_map (λ w. w.now) result ≡ only (map (λ w. w.now) plain.now) }
{
    match plain {
        [word] => Some(*word),
        _ => None,
    }
}

fn two_words<'a>(plain: &[&'a str]) -> Option<(&'a str, &'a str)>
    ensures { option_map (λ p. (p.0.now, p.1.now)) result ≡ both (map (λ w. w.now) plain.now) }
{
    match plain {
        [first, second] => Some((*first, *second)),
        _ => None,
    }
}

/// SEED from 0 to 4,294,967,295 and COUNT from 1 to 20,000.
fn seed_and_count<'a>(plain: &[&'a str]) -> Option<Command<'a>>
    ensures command { option_map meant result ≡ seed_and_count (map (λ w. w.now) plain.now) }
    ensures ranges { IfSome result (λ command. IsInRange (meant command)) }
{
    let [seed, count] = plain else { return None };
    Some(Command::Gen {
        seed: number_in(seed, 0, u32::MAX)?,
        count: number_in(count, 1, 20_000)?,
    })
}
