// What is asked of the document with a name.
ghost use Rattle.std.specs.Prelude.{IsTrue};

use path_model::XPath;

/// What is asked of a document.
#[derive(Debug, Drop)]
pub enum Question {
    /// The whole of it.
    Whole,
    /// What a path finds from it.
    FoundBy(XPath),
}
