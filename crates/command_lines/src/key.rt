//! The keys of calls.
ghost use Rattle.std.specs.Prelude.{◌≡◌};
ghost use Rattle.command_lines.specs.KeyValues.{key_name};

/// A key of a call, which tells the kind of its value.
#[derive(Debug, Drop, Clone, Copy)]
pub enum Key {
    /// The label of a document or of a node below one.
    At,
    /// A location path.
    Path,
    /// A text.
    Name,
    /// A whole number up to 4,294,967,295.
    Offset,
    /// A whole number up to 4,294,967,295.
    Count,
    /// A label as at `at`, or null.
    Before,
    /// A label as at `at`.
    Old,
    /// A fragment as JsonML.
    Tree,
    /// The key `tree` where it may be missing or null.
    TreeOrNone,
    /// A text.
    Value,
    /// A text.
    Data,
}

impl Key {
    /// The key as it stands in a line.
    pub fn name(self) -> &'static str
        ensures { result.now ≡ key_name self }
    {
        match self {
            Key::At => "at",
            Key::Path => "path",
            Key::Name => "name",
            Key::Offset => "offset",
            Key::Count => "count",
            Key::Before => "before",
            Key::Old => "old",
            Key::Tree | Key::TreeOrNone => "tree",
            Key::Value => "value",
            Key::Data => "data",
        }
    }
}
