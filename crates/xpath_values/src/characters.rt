//! The functions that count characters and cut between them (XPath 1.0, section 4.2, `substring` and `string-length`).
ghost use Rattle.std.specs.Prelude.{◌≡◌, ◌+ℤ◌, pos, length, take, drop, encode_utf8_all};
ghost use Rattle.std.specs.Str.{chars};
ghost use Rattle.path_model.specs.Texts as spec;
ghost use Rattle.xpath_values.specs.Places.{places_before};

/// `string-length`
pub fn string_length(text: &str) -> i64
    ensures { result ≡ pos (length (chars text.now)) }
{
    count_of(text) as i64
}

fn count_of(text: &str) -> usize
    ensures { result ≡ length (chars text.now) }
{
    text.chars().count()
}

/// `substring` with two arguments: the characters from a place on, counted from 1.
pub fn substring_from(text: &str, start: Option<i64>) -> &str
    ensures { result.now ≡ spec.substring_from text.now start }
{
    match start {
        Some(start) => without_first(text, places_before(start)),
        None => "",
    }
}

/// `substring` with three arguments: as many characters from a place on.
pub fn substring_within(text: &str, start: Option<i64>, length: Option<i64>) -> &str
    ensures { result.now ≡ spec.substring_within text.now start length }
{
    match (start, length) {
        (Some(start), Some(length)) => {
            let first = first_characters(text, places_before_end(start, length));
            without_first(first, places_before(start))
        }
        _ => "",
    }
}

/// How many places, counted from 1, stand before a place.
fn places_before(start: i64) -> u64
    ensures { result ≡ places_before start }
{
    if start <= 1 { 0 } else { (start - 1) as u64 }
}

/// How many places, counted from 1, stand before the end; it may be past all numbers of 64 bits.
fn places_before_end(start: i64, length: i64) -> u64
    ensures { result ≡ places_before (start +ℤ length) }
{
    let end = i128::from(start) + i128::from(length);
    if end <= 1 { 0 } else { (end - 1) as u64 }
}

/// What stands behind the first characters, nothing where there are fewer.
fn without_first(text: &str, count: u64) -> &str
    ensures { result.now ≡ encode_utf8_all (drop count (chars text.now)) }
{
    let mut rest = text.chars();
    let mut passed = 0;
    while passed < count {
        match rest.next() {
            Some(_) => passed += 1,
            None => return "",
        }
    }
    rest.as_str()
}

/// The first characters, all where there are fewer.
fn first_characters(text: &str, count: u64) -> &str
    ensures { result.now ≡ encode_utf8_all (take count (chars text.now)) }
{
    let behind = without_first(text, count);
    &text[..text.len() - behind.len()]
}
