//! Words, as the manual has them ("Words"), and their options by hand.
use command_words::{Arguments, Words, WordsError, read_arguments, read_words};
use std::alloc::{AllocError, Global};
use std::test::Fail;

/// Words with a blank between them; `''` stands for the empty word.
fn all_words(alloc: Global, words: &str) -> Result<Vec<String>, AllocError> {
    let mut all = Vec::new(alloc);
    for word in words.split(' ') {
        if words.is_empty() {
            continue;
        }
        let word = if word == "''" { "" } else { word };
        all.push(String::from_str(alloc, word)?)?;
    }
    Ok(all)
}

/// The command that the words ask for, with its options.
fn command_of(alloc: Global, words: &Vec<String>) -> Result<String, AllocError> {
    match read_words(alloc, words) {
        Ok(
            Words {
                command,
                frames,
                checkpoint,
            },
        ) => format!(in alloc; "{command:?} {frames} {checkpoint}"),
        Err(why) => format!(in alloc; "{why:?}"),
    }
}

fn command_over(alloc: Global, words: &str) -> Result<String, AllocError> {
    let words = all_words(alloc, words)?;
    command_of(alloc, &words)
}

/// A command without its options, which are the last two words.
fn without_options(text: &str) -> &str {
    let Some((before, _checkpoint)) = text.rsplit_once(' ') else {
        return text;
    };
    match before.rsplit_once(' ') {
        Some((command, _frames)) => command,
        None => text,
    }
}

/// Words, and the command that they ask for.
const COMMANDS: [(&str, &str); 58] = [
    ("", "Usage"),
    ("''", "Usage"),
    ("run", "Run"),
    ("run x", "Usage"),
    ("run ''", "Usage"),
    ("Run", "Usage"),
    ("runs", "Usage"),
    ("run --", "Run"),
    ("run -- --", "Usage"),
    ("-- run", "Usage"),
    ("workers", "Workers"),
    ("workers --", "Workers"),
    ("workers 2", "Usage"),
    ("worker", "Usage"),
    ("run --checkpoint=0", "Run"),
    ("--frames 8 run", "Usage"),
    ("run --help", "Usage"),
    ("run -h", "Usage"),
    ("help", "Usage"),
    ("--version", "Usage"),
    ("run ---", "Usage"),
    ("run --=5", "Usage"),
    ("put", "Usage"),
    ("put x", "Put(\"x\")"),
    ("put x y", "Usage"),
    ("put ''", "Put(\"\")"),
    ("put -", "Put(\"-\")"),
    ("put -x", "Usage"),
    ("put -- -x", "Put(\"-x\")"),
    ("get -- --", "Get(\"--\")"),
    ("get -\u{e9}", "Usage"),
    ("query x //a", "Query(\"x\", \"//a\")"),
    ("query x", "Usage"),
    ("query x /a /b", "Usage"),
    ("query x -1", "Usage"),
    ("query -- x -1", "Query(\"x\", \"-1\")"),
    ("gen 7 2000", "Gen { seed: 7, count: 2000 }"),
    ("gen 0 1", "Gen { seed: 0, count: 1 }"),
    (
        "gen 4294967295 20000",
        "Gen { seed: 4294967295, count: 20000 }",
    ),
    ("gen 0000000007 0000000001", "Gen { seed: 7, count: 1 }"),
    ("gen -- 7 1", "Gen { seed: 7, count: 1 }"),
    ("gen 4294967296 1", "Usage"),
    ("gen 9999999999 1", "Usage"),
    ("gen 1 0", "Usage"),
    ("gen 1 20001", "Usage"),
    ("gen 00000000007 1", "Usage"),
    ("gen 7 00000000001", "Usage"),
    ("gen -1 1", "Usage"),
    ("gen -- -1 1", "Usage"),
    ("gen +1 1", "Usage"),
    ("gen 1 1.0", "Usage"),
    ("gen 1x 1", "Usage"),
    ("gen '' 1", "Usage"),
    ("gen \u{661} 1", "Usage"),
    ("gen", "Usage"),
    ("gen 7", "Usage"),
    ("gen 7 1 1", "Usage"),
    ("gen 7 1 --checkpoint 1", "Gen { seed: 7, count: 1 }"),
];

#[test]
fn words_ask_for_a_command_or_are_refused(rt: HostRuntime) -> Result<(), Fail> {
    for &(words, want) in &COMMANDS {
        let text = command_over(rt.alloc(), words)?;
        assert_eq!(rt; without_options(&text), want, "at {words:?}");
    }
    Ok(())
}

/// Words, and the command and the options that they ask for: frames, and the commits between two checkpoints.
const WITH_OPTIONS: [(&str, &str); 40] = [
    ("run", "Run 256 0"),
    ("gen 7 1", "Gen { seed: 7, count: 1 } 256 0"),
    ("run --frames 1", "Run 1 0"),
    ("run --frames=7", "Run 7 0"),
    ("workers --frames 65536", "Workers 65536 0"),
    ("put --frames 64 x", "Put(\"x\") 64 0"),
    ("get x --frames=64", "Get(\"x\") 64 0"),
    ("query x --frames 2 //a", "Query(\"x\", \"//a\") 2 0"),
    ("gen 7 --frames=3 1", "Gen { seed: 7, count: 1 } 3 0"),
    ("run --frames 0000000009", "Run 9 0"),
    ("run --frames 9 --", "Run 9 0"),
    ("get -- --frames", "Get(\"--frames\") 256 0"),
    ("get --frames 5 -- --frames", "Get(\"--frames\") 5 0"),
    ("run --frames 0", "Usage"),
    ("run --frames 65537", "Usage"),
    ("run --frames 4294967297", "Usage"),
    ("run --frames 00000000009", "Usage"),
    ("run --frames", "Usage"),
    ("run --frames=", "Usage"),
    ("run --frames ''", "Usage"),
    ("run --frames -- 1", "Usage"),
    ("run --frames=8=8", "Usage"),
    ("run --frames=-8", "Usage"),
    ("run --frames 8 --frames=8", "Usage"),
    ("run --frames --frames 8", "Usage"),
    ("run -- --frames 8", "Usage"),
    ("run --checkpoint 1", "Run 256 1"),
    ("run --checkpoint=1000000", "Run 256 1000000"),
    (
        "gen --checkpoint 2000 7 2000",
        "Gen { seed: 7, count: 2000 } 256 2000",
    ),
    ("workers --checkpoint 0", "Workers 256 0"),
    ("put x --checkpoint 5", "Put(\"x\") 256 5"),
    ("run --frames 8 --checkpoint=3", "Run 8 3"),
    ("run --checkpoint=3 --frames 8", "Run 8 3"),
    ("run --checkpoint 1000001", "Usage"),
    ("run --checkpoint", "Usage"),
    ("run --checkpoint -1", "Usage"),
    ("run --checkpoint 1 --checkpoint 1", "Usage"),
    ("run --checkpoint 00000000001", "Usage"),
    (
        "gen --frames 1 --checkpoint 2 -- 7 1",
        "Gen { seed: 7, count: 1 } 1 2",
    ),
    (
        "query --frames 1 --checkpoint 2 -- x -1",
        "Query(\"x\", \"-1\") 1 2",
    ),
];

#[test]
fn every_command_takes_frames_and_checkpoints(rt: HostRuntime) -> Result<(), Fail> {
    for &(words, want) in &WITH_OPTIONS {
        let text = command_over(rt.alloc(), words)?;
        assert_eq!(rt; text.as_str(), want, "at {words:?}");
    }
    Ok(())
}

/// The texts of two options and the plain words, as they were told apart.
fn parts(alloc: Global, arguments: &Arguments<'_>) -> Result<String, AllocError> {
    let frames = arguments.text("frames");
    let checkpoint = arguments.text("checkpoint");
    let plain = arguments.plain();
    format!(in alloc; "{frames:?} {checkpoint:?} {plain:?}")
}

/// The same of words, with these options.
fn told_apart(alloc: Global, words: &str) -> Result<String, Fail> {
    let words = all_words(alloc, words)?;
    match read_arguments(alloc, &["frames", "checkpoint"], words.as_slice()) {
        Ok(arguments) => Ok(parts(alloc, &arguments)?),
        Err(WordsError::Usage) => Ok(String::from_str(alloc, "Usage")?),
        Err(WordsError::NoMemory) => Err(Fail::from("no memory")),
    }
}

/// Words with options `frames` and `checkpoint`, and what is told apart of them.
const OPTIONS: [(&str, &str); 19] = [
    ("", "None None None"),
    ("x", "None None Some([\"x\"])"),
    ("--frames 4 x", "Some(\"4\") None Some([\"x\"])"),
    ("x --frames=4 y", "Some(\"4\") None Some([\"x\", \"y\"])"),
    ("--frames 4 --checkpoint 7", "Some(\"4\") Some(\"7\") None"),
    ("--frames=4=5", "Some(\"4=5\") None None"),
    ("--frames=", "Some(\"\") None None"),
    ("--frames ''", "Some(\"\") None None"),
    ("--frames -", "Some(\"-\") None None"),
    ("--frames=-1", "Some(\"-1\") None None"),
    ("--frames 4 --frames 4", "Usage"),
    ("--frames=4 --checkpoint=1 --frames=5", "Usage"),
    ("--frames", "Usage"),
    ("--frames -- 1", "Usage"),
    ("--frames --checkpoint 1", "Usage"),
    ("--frame 1", "Usage"),
    ("--framess 1", "Usage"),
    (
        "x -- --frames 4",
        "None None Some([\"x\", \"--frames\", \"4\"])",
    ),
    (
        "--frames 4 -- -- -x",
        "Some(\"4\") None Some([\"--\", \"-x\"])",
    ),
];

#[test]
fn options_are_told_from_plain_words(rt: HostRuntime) -> Result<(), Fail> {
    for &(words, want) in &OPTIONS {
        let text = told_apart(rt.alloc(), words)?;
        assert_eq!(rt; text.as_str(), want, "at {words:?}");
    }
    Ok(())
}
