//! The laws of the parser, each the contract of a function that does nothing.
ghost use Rattle.std.specs.Prelude.{◌≡◌, true, List, map, ℕ, Ok};
ghost use Rattle.path_model.specs.Lawful.{is_lawful};
ghost use Rattle.path_model.specs.declared.path.XPath.{XPath};
ghost use Rattle.xpath_parser.specs.Parse.{parsed};
ghost use Rattle.xpath_parser.specs.PathText.{has_text, text_of};
ghost use Rattle.xpath_parser.specs.Words.{axes, function_row, function_rows};
ghost use Rattle.xpath_parser.specs.declared.words.TheConstants.{AXES, FUNCTIONS};

/// A path that a text is read as is lawful: its operands are as many and of the kind that operators and functions take, its numbers are in range, and its parts nest within the limit.
pub fn parsed_paths_are_lawful()
    ensures lawful { (text : List ℕ) (p : XPath) → parsed text ≡ Ok p → is_lawful p ≡ true }
{}

/// No path is lost: each that has a text (`has_text`) is what this text is read as.
/// It has one where it is lawful, no number of it is negative, its names are names, no literal has both quotes, it has a step or begins at the document,
/// and at most 50 parts lie in each other with the parentheses of that text.
pub fn texts_of_paths_are_read_as_them()
    ensures read_back { (p : XPath) → has_text p ≡ true → parsed (text_of p) ≡ Ok p }
{}

/// The tables that a path's words are looked up in are the profile's: no word more, none less, and each with its own axis or function.
pub fn words_are_those_of_the_profile()
    ensures axes { map (λ row. (row.0.now, row.1)) AXES ≡ axes }
    ensures functions { map (λ row. function_row row.0.now row.1 row.2 row.3 row.4) FUNCTIONS ≡ function_rows }
{}
