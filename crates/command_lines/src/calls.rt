//! The words that lines ask by, and the keys of each.
ghost use Rattle.std.specs.Prelude.{◌≡◌, map};
ghost use Rattle.command_lines.specs.Calls.{call_named, calls, find_call};
ghost use Rattle.command_lines.specs.declared.calls.TheConstants.{CALLS};

/// What a line asks for.
#[derive(Drop, Clone, Copy)]
pub enum Word {
    Begin,
    Commit,
    Abort,
    Dom(DomWord),
    /// `at`, `path`
    Find,
}

/// What is asked of the tree, by the keys that it takes.
#[derive(Drop, Clone, Copy)]
pub enum DomWord {
    Docs,
    /// `name`
    OfName(OfNameCall),
    /// `name`, `tree`, which may be missing or null
    Create,
    /// `at`
    At(AtCall),
    /// `at`, `name`
    AtName(AtNameCall),
    /// `at`, `data`
    AtData(AtDataCall),
    /// `at`, `offset`, `count`
    AtRange(AtRangeCall),
    /// `at`, `tree`
    Append,
    /// `at`, `before`, `tree`
    Insert,
    /// `at`, `old`, `tree`
    Replace,
    /// `at`, `old`
    Remove,
    /// `at`, `name`, `value`
    SetAttr,
    /// `at`, `offset`, `data`
    InsertData,
    /// `at`, `offset`, `count`, `data`
    ReplaceData,
    /// `at`, `offset`
    SplitText,
}

#[derive(Drop, Clone, Copy)]
pub enum OfNameCall {
    Doc,
    Drop,
}

#[derive(Drop, Clone, Copy)]
pub enum AtCall {
    Node,
    Parent,
    First,
    Last,
    Next,
    Prev,
    Children,
    Attrs,
    TextContent,
    Dump,
    Length,
    Normalize,
}

#[derive(Drop, Clone, Copy)]
pub enum AtNameCall {
    Attr,
    HasAttr,
    Tags,
    RemoveAttr,
    Rename,
}

#[derive(Drop, Clone, Copy)]
pub enum AtDataCall {
    SetData,
    AppendData,
    SetText,
}

#[derive(Drop, Clone, Copy)]
pub enum AtRangeCall {
    Substring,
    DeleteData,
}

/// Each word as it stands in a line, and what it asks for, which tells its keys in the order in which they are tried.
pub const CALLS: [(&str, Word); 38] = [
    ("begin", Word::Begin),
    ("commit", Word::Commit),
    ("abort", Word::Abort),
    ("docs", Word::Dom(DomWord::Docs)),
    ("doc", Word::Dom(DomWord::OfName(OfNameCall::Doc))),
    ("node", Word::Dom(DomWord::At(AtCall::Node))),
    ("parent", Word::Dom(DomWord::At(AtCall::Parent))),
    ("first", Word::Dom(DomWord::At(AtCall::First))),
    ("last", Word::Dom(DomWord::At(AtCall::Last))),
    ("next", Word::Dom(DomWord::At(AtCall::Next))),
    ("prev", Word::Dom(DomWord::At(AtCall::Prev))),
    ("children", Word::Dom(DomWord::At(AtCall::Children))),
    ("attr", Word::Dom(DomWord::AtName(AtNameCall::Attr))),
    ("has_attr", Word::Dom(DomWord::AtName(AtNameCall::HasAttr))),
    ("attrs", Word::Dom(DomWord::At(AtCall::Attrs))),
    ("text_content", Word::Dom(DomWord::At(AtCall::TextContent))),
    ("tags", Word::Dom(DomWord::AtName(AtNameCall::Tags))),
    ("dump", Word::Dom(DomWord::At(AtCall::Dump))),
    ("length", Word::Dom(DomWord::At(AtCall::Length))),
    (
        "substring",
        Word::Dom(DomWord::AtRange(AtRangeCall::Substring)),
    ),
    ("find", Word::Find),
    ("create", Word::Dom(DomWord::Create)),
    ("drop", Word::Dom(DomWord::OfName(OfNameCall::Drop))),
    ("append", Word::Dom(DomWord::Append)),
    ("insert", Word::Dom(DomWord::Insert)),
    ("replace", Word::Dom(DomWord::Replace)),
    ("remove", Word::Dom(DomWord::Remove)),
    ("set_attr", Word::Dom(DomWord::SetAttr)),
    (
        "remove_attr",
        Word::Dom(DomWord::AtName(AtNameCall::RemoveAttr)),
    ),
    ("rename", Word::Dom(DomWord::AtName(AtNameCall::Rename))),
    ("set_data", Word::Dom(DomWord::AtData(AtDataCall::SetData))),
    (
        "append_data",
        Word::Dom(DomWord::AtData(AtDataCall::AppendData)),
    ),
    ("insert_data", Word::Dom(DomWord::InsertData)),
    (
        "delete_data",
        Word::Dom(DomWord::AtRange(AtRangeCall::DeleteData)),
    ),
    ("replace_data", Word::Dom(DomWord::ReplaceData)),
    ("split_text", Word::Dom(DomWord::SplitText)),
    ("normalize", Word::Dom(DomWord::At(AtCall::Normalize))),
    ("set_text", Word::Dom(DomWord::AtData(AtDataCall::SetText))),
];

/// The table is that of the calls: no word more, none less, and each asks for its own call.
pub fn words_are_those_of_the_calls()
    ensures { map (λ row. (row.0.now, row.1)) CALLS ≡ calls }
{}

/// What a word asks for.
pub(crate) fn call_named(name: &str) -> Option<Word>
    ensures { result ≡ call_named name.now }
{
    find_call(&CALLS, name)
}

/// What a word asks for by these rows.
fn find_call(rows: &[(&str, Word)], name: &str) -> Option<Word>
    ensures { result ≡ find_call name.now (map (λ row. (row.0.now, row.1)) rows.now) }
{
    for (word, asks) in rows {
        if *word == name {
            return Some(*asks);
        }
    }
    None
}
