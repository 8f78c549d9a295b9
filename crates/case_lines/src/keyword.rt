ghost use Rattle.std.specs.Prelude.{◌≡◌};
ghost use Rattle.case_lines.specs.Keywords.{load_word_of, entry_word_of, keyword_of};

// The first words of lines of what a board was loaded with, but for a table's.
#[derive(Clone, Copy, Debug, PartialEq, Eq)]
pub(crate) enum LoadWord {
    List,
    Line,
    Hop,
    Stop,
    Path,
    Measure,
    Rule,
    Ladder,
    Surcharge,
    Room,
}

// The first words of lines of a log, but for a question's.
#[derive(Clone, Copy, Debug, PartialEq, Eq)]
pub(crate) enum EntryWord {
    Cancel,
    Reinstate,
    Delay,
}

// What kind of line it is, by its first word.
#[derive(Clone, Copy, Debug, PartialEq, Eq)]
pub(crate) enum Keyword {
    Case,
    Table,
    Ask,
    Load(LoadWord),
    Entry(EntryWord),
}

fn loading(word: &[u8]) -> Option<LoadWord>
    ensures { result ≡ load_word_of word.now }
{
    if word == b"hop".as_slice() {
        Some(LoadWord::Hop)
    } else if word == b"stop".as_slice() {
        Some(LoadWord::Stop)
    } else if word == b"path".as_slice() {
        Some(LoadWord::Path)
    } else if word == b"rule".as_slice() {
        Some(LoadWord::Rule)
    } else if word == b"list".as_slice() {
        Some(LoadWord::List)
    } else if word == b"line".as_slice() {
        Some(LoadWord::Line)
    } else if word == b"measure".as_slice() {
        Some(LoadWord::Measure)
    } else if word == b"ladder".as_slice() {
        Some(LoadWord::Ladder)
    } else if word == b"surcharge".as_slice() {
        Some(LoadWord::Surcharge)
    } else if word == b"room".as_slice() {
        Some(LoadWord::Room)
    } else {
        None
    }
}

fn entering(word: &[u8]) -> Option<EntryWord>
    ensures { result ≡ entry_word_of word.now }
{
    if word == b"cancel".as_slice() {
        Some(EntryWord::Cancel)
    } else if word == b"reinstate".as_slice() {
        Some(EntryWord::Reinstate)
    } else if word == b"delay".as_slice() {
        Some(EntryWord::Delay)
    } else {
        None
    }
}

pub(crate) fn kind_of(word: &[u8]) -> Option<Keyword>
    ensures { result ≡ keyword_of word.now }
{
    if word == b"ask".as_slice() {
        return Some(Keyword::Ask);
    }
    if word == b"case".as_slice() {
        return Some(Keyword::Case);
    }
    if word == b"table".as_slice() {
        return Some(Keyword::Table);
    }
    match entering(word) {
        Some(entry) => Some(Keyword::Entry(entry)),
        None => loading(word).map(Keyword::Load),
    }
}
