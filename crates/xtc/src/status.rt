// The statuses that the program ends with, with their numbers and texts.
ghost use Rattle.std.specs.Prelude.{◌≡◌};
ghost use Rattle.xtc.specs.Statuses.{file_text, status_number, status_of, status_of_end, status_of_gathering, status_of_fragment, status_of_path, status_of_script, status_of_stop, status_of_words};

use command_words::WordsError;
use dewey_labels::NoMemory as WantsMemory;
use durable_sessions::{Reason, Stop};
use journal::DiskFault as JournalFault;
use jsonml_io::FragmentError;
use node_records::{File, OpenError, Place};
use script_runs::{End, GatherError, Halt};
use std::fmt;
use std::fmt::{Display, Formatter, Write};
use workers_text::ScriptError;
use xpath_parser::PathError;

/// How a run of the program ended.
#[derive(Debug, Drop)]
pub enum Status {
    /// The input, where the command has one, was read to its end, and all was written.
    Done,
    /// The words aren't those of a command.
    Usage,
    /// A line, by its number from 1, has more bytes than a line may have; with number 0 the whole input of `put` or `workers` has more than that may have.
    LineTooLong { line: u64 },
    /// The files hold no store; the place is that of the first rule that they break.
    Damaged(Place),
    /// A read failed, or the source gave as many bytes as one run takes.
    ReadFault,
    /// A write failed.
    WriteFault,
    /// A disk failed. The commit that was under way may be found at the next opening or not.
    DiskFault,
    /// There was no memory.
    NoMemory,
    /// The input of `put` isn't an element in JsonML.
    NotJsonMl(FragmentError),
    /// The store refuses the document.
    DocumentRefused(Reason),
}

impl Status {
    /// The number that the program ends with.
    pub fn number(&self) -> u8
        ensures { result ≡ status_number self.now }
    {
        match self {
            Status::Done => 0,
            Status::Usage => 2,
            Status::LineTooLong { .. } => 3,
            Status::Damaged(_) => 4,
            Status::ReadFault => 5,
            Status::WriteFault => 6,
            Status::DiskFault => 7,
            Status::NoMemory => 8,
            Status::NotJsonMl(_) => 9,
            Status::DocumentRefused(_) => 10,
        }
    }
}

/// Words that give no command.
impl From<WordsError> for Status {
    ghost from_gives = { λ error status. status ≡ status_of_words error };

    fn from(error: WordsError) -> Status {
        match error {
            WordsError::Usage => Status::Usage,
            WordsError::NoMemory => Status::NoMemory,
        }
    }
}

/// A store that isn't opened.
impl From<OpenError> for Status {
    ghost from_gives = { λ error status. status ≡ status_of error };

    fn from(error: OpenError) -> Status {
        match error {
            OpenError::Damaged(place) => Status::Damaged(place),
            OpenError::DiskFault => Status::DiskFault,
            OpenError::NoMemory => Status::NoMemory,
        }
    }
}

/// A script that ran.
impl From<End> for Status {
    ghost from_gives = { λ end status. status ≡ status_of_end end };

    fn from(end: End) -> Status {
        match end {
            End::Done => Status::Done,
            End::LineTooLong { line } => Status::LineTooLong { line },
            End::ReadFault => Status::ReadFault,
            End::WriteFault => Status::WriteFault,
            End::Halted(Halt::DiskFault) => Status::DiskFault,
            End::Halted(Halt::NoMemory) => Status::NoMemory,
            End::Halted(Halt::Damaged(place)) => Status::Damaged(place),
        }
    }
}

/// A whole input that can't be had.
impl From<GatherError> for Status {
    ghost from_gives = { λ error status. status ≡ status_of_gathering error };

    fn from(error: GatherError) -> Status {
        match error {
            GatherError::TooLong => Status::LineTooLong { line: 0 },
            GatherError::ReadFault => Status::ReadFault,
            GatherError::NoMemory => Status::NoMemory,
        }
    }
}

/// An input that isn't an element.
impl From<FragmentError> for Status {
    ghost from_gives = { λ error status. status ≡ status_of_fragment error };

    fn from(error: FragmentError) -> Status {
        match error {
            FragmentError::NoMemory => Status::NoMemory,
            error => Status::NotJsonMl(error),
        }
    }
}

/// A path that is none.
impl From<PathError> for Status {
    ghost from_gives = { λ error status. status ≡ status_of_path error };

    fn from(error: PathError) -> Status {
        match error {
            PathError::NoMemory => Status::NoMemory,
            error => Status::DocumentRefused(Reason::Path(error)),
        }
    }
}

/// Sessions that are asked no more.
impl From<Stop> for Status {
    ghost from_gives = { λ stop status. status ≡ status_of_stop stop };

    fn from(stop: Stop) -> Status {
        match stop {
            Stop::Refused(why) => Status::DocumentRefused(why),
            Stop::DiskFault => Status::DiskFault,
            Stop::NoMemory => Status::NoMemory,
        }
    }
}

/// A whole script that can't be had.
impl From<ScriptError> for Status {
    ghost from_gives = { λ error status. status ≡ status_of_script error };

    fn from(error: ScriptError) -> Status {
        match error {
            ScriptError::TooLong { line } => Status::LineTooLong { line },
            ScriptError::ReadFault => Status::ReadFault,
            ScriptError::NoMemory => Status::NoMemory,
        }
    }
}

/// Commits that can't be made durable.
impl From<JournalFault> for Status {
    ghost use Rattle.xtc.specs.declared.status.Status.TheVariants.{DiskFault};

    ghost from_gives = { λ _ status. status ≡ DiskFault };

    fn from(_failed: JournalFault) -> Status {
        Status::DiskFault
    }
}

impl From<WantsMemory> for Status {
    ghost use Rattle.xtc.specs.declared.status.Status.TheVariants.{NoMemory};

    ghost from_gives = { λ _ status. status ≡ NoMemory };

    fn from(_refused: WantsMemory) -> Status {
        Status::NoMemory
    }
}

/// What a status calls the file of a place.
fn file_name(file: File) -> &'static str
    ensures { result.now ≡ file_text file }
{
    match file {
        File::Journal => "journal",
        File::Pages => "pages",
        File::Tree => "tree",
    }
}

/// What the program prints of the status on standard error; nothing at `Done`.
impl Display for Status {
    ghost use Rattle.std.specs.Prelude.{Some};
    ghost use Rattle.xtc.specs.Statuses.{status_text};

    ghost output = { λ status. Some (status_text status) };

    fn fmt<W: Write>(&self, f: &mut Formatter<W>) -> fmt::Result {
        match self {
            Status::Done => Ok(()),
            Status::Usage => write!(f, "xtc: usage"),
            Status::LineTooLong { line } => write!(f, "xtc: line {line} is too long"),
            Status::Damaged(Place { file, at }) => {
                write!(f, "xtc: damaged {} at {at}", file_name(*file))
            }
            Status::ReadFault => write!(f, "xtc: input failed"),
            Status::WriteFault => write!(f, "xtc: output failed"),
            Status::DiskFault => write!(f, "xtc: disk failed"),
            Status::NoMemory => write!(f, "xtc: no memory"),
            Status::NotJsonMl(_) => write!(f, "xtc: not JsonML"),
            Status::DocumentRefused(_) => write!(f, "xtc: refused"),
        }
    }
}
