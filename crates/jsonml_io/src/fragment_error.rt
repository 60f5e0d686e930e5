// Why a fragment isn't read, with the place as a JSON pointer that grows from the inside out.
ghost use Rattle.std.specs.Prelude.{◌≡◌, ◌≢◌, ◌++◌, IfOk};
ghost use Rattle.jsonml_io.specs.Pointers.{step_to_item, step_to_member};
ghost use Rattle.jsonml_io.specs.JsonMl.{refusal_name, refusal_path, seen_from_above};

use crate::pointer::{step_to_item, step_to_member};
use dewey_labels::{Copied, NoMemory, Text};
use std::alloc::Global;

/// Why bytes or a value are not JsonML. `path` is the JSON pointer (RFC 6901) from the top to the place.
#[derive(Debug, Drop)]
pub enum FragmentError {
    /// The bytes are no JSON value.
    NotJson,
    /// An empty array, a name that is no string, an attribute's value that is an array or object, or no fragment at all.
    NotJsonMl { path: Text },
    /// An attribute's number that isn't whole.
    Fraction { path: Text },
    /// An element's or an attribute's name that is no Name of XML 1.0.
    BadName { path: Text },
    /// Arrays nest more than 100 deep.
    TooDeep { path: Text },
    /// A text or an attribute's value has more than 1,048,576 bytes.
    TextLimit { path: Text },
    NoMemory,
}

impl From<NoMemory> for FragmentError {
    ghost use Rattle.jsonml_io.specs.declared.fragment_error.FragmentError.TheVariants.{NoMemory};

    ghost from_gives = { λ _ error. error ≡ NoMemory };

    fn from(_error: NoMemory) -> FragmentError {
        FragmentError::NoMemory
    }
}

impl FragmentError {
    /// The refusal's name, as replies have it.
    pub fn name(&self) -> &'static str
        ensures { result.now ≡ refusal_name self.now }
    {
        match self {
            FragmentError::NotJson => "NotJson",
            FragmentError::NotJsonMl { .. } => "NotJsonMl",
            FragmentError::Fraction { .. } => "Fraction",
            FragmentError::BadName { .. } => "BadName",
            FragmentError::TooDeep { .. } => "TooDeep",
            FragmentError::TextLimit { .. } => "TextLimit",
            FragmentError::NoMemory => "NoMemory",
        }
    }

    /// The pointer to the place; empty at the top, and where there is no place.
    pub fn path(&self) -> &str
        ensures { result.now ≡ refusal_path self.now }
    {
        match self {
            FragmentError::NotJsonMl { path }
            | FragmentError::Fraction { path }
            | FragmentError::BadName { path }
            | FragmentError::TooDeep { path }
            | FragmentError::TextLimit { path } => path.as_str(),
            FragmentError::NotJson | FragmentError::NoMemory => "",
        }
    }

    /// The refusal of an array's item, seen from the array.
    pub(crate) fn at_item(self, alloc: Global, index: usize) -> FragmentError
        ensures { result ≢ FragmentError.NoMemory → result ≡ seen_from_above (step_to_item index) self }
    {
        match step_to_item(alloc, index) {
            Ok(step) => self.below(alloc, step.as_str()),
            Err(NoMemory) => FragmentError::NoMemory,
        }
    }

    /// The refusal of an object's member, seen from the object.
    pub(crate) fn at_member(self, alloc: Global, name: &str) -> FragmentError
        ensures { result ≢ FragmentError.NoMemory → result ≡ seen_from_above (step_to_member name.now) self }
    {
        match step_to_member(alloc, name) {
            Ok(step) => self.below(alloc, step.as_str()),
            Err(NoMemory) => FragmentError::NoMemory,
        }
    }

    fn below(self, alloc: Global, step: &str) -> FragmentError
        ensures { result ≢ FragmentError.NoMemory → result ≡ seen_from_above step.now self }
    {
        match self.seen_from_above(alloc, step) {
            Ok(error) => error,
            Err(NoMemory) => FragmentError::NoMemory,
        }
    }

    fn seen_from_above(self, alloc: Global, step: &str) -> Result<FragmentError, NoMemory>
        ensures { IfOk result (λ error. error ≡ seen_from_above step.now self) }
    {
        Ok(match self {
            FragmentError::NotJson => FragmentError::NotJson,
            FragmentError::NotJsonMl { path } => FragmentError::NotJsonMl {
                path: longer(alloc, step, &path)?,
            },
            FragmentError::Fraction { path } => FragmentError::Fraction {
                path: longer(alloc, step, &path)?,
            },
            FragmentError::BadName { path } => FragmentError::BadName {
                path: longer(alloc, step, &path)?,
            },
            FragmentError::TooDeep { path } => FragmentError::TooDeep {
                path: longer(alloc, step, &path)?,
            },
            FragmentError::TextLimit { path } => FragmentError::TextLimit {
                path: longer(alloc, step, &path)?,
            },
            FragmentError::NoMemory => FragmentError::NoMemory,
        })
    }
}

impl FragmentError {
    pub fn copy(&self, alloc: Global) -> Result<FragmentError, NoMemory>
        ensures { IfOk result (λ copy. copy ≡ self.now) }
    {
        match self {
            FragmentError::NotJson => Ok(FragmentError::NotJson),
            FragmentError::NotJsonMl { path } => Ok(FragmentError::NotJsonMl {
                path: path.copy(alloc)?,
            }),
            FragmentError::Fraction { path } => Ok(FragmentError::Fraction {
                path: path.copy(alloc)?,
            }),
            FragmentError::BadName { path } => Ok(FragmentError::BadName {
                path: path.copy(alloc)?,
            }),
            FragmentError::TooDeep { path } => Ok(FragmentError::TooDeep {
                path: path.copy(alloc)?,
            }),
            FragmentError::TextLimit { path } => Ok(FragmentError::TextLimit {
                path: path.copy(alloc)?,
            }),
            FragmentError::NoMemory => Ok(FragmentError::NoMemory),
        }
    }
}

impl Copied for FragmentError {
    fn copy(&self, alloc: Global) -> Result<FragmentError, NoMemory> {
        FragmentError::copy(self, alloc)
    }
}

/// A step and then the path from there.
fn longer(alloc: Global, step: &str, path: &Text) -> Result<Text, NoMemory>
    ensures { IfOk result (λ longer. longer ≡ step.now ++ path.now) }
{
    let mut longer = String::from_str(alloc, step)?;
    longer.push_str(path.as_str())?;
    Ok(Text::from_string(longer))
}
