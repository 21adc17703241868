// What a word after the names of a row sets.
ghost use Rattle.std.specs.Prelude.{◌≡◌};
ghost use Rattle.script.specs.Lines.{target_of, link_to, link_of, mark_of, setting_of};

use crate::numbers::{number_of, short_of};
use rows::{ImportKind, ImportRecord};

#[derive(Clone, Copy)]
pub enum Setting {
    Outside,
    SelfAccepting,
    LazyExport,
    Entry,
    Esm,
    CommonJs,
    Mark(u64),
    Link(ImportRecord),
}

// An import record that leads to a row, or to none where the word is `-`.
fn link_to(kind: ImportKind, word: &[u8]) -> Option<Setting>
    ensures { result ≡ link_to kind word.now }
{
    let target = match word {
        b"-" => None,
        row => Some(short_of(row).ok()?),
    };
    Some(Setting::Link(ImportRecord { kind, target }))
}

// How the words of import records begin.
const LINKS: [(&[u8], ImportKind); 4] = [
    (b"import:", ImportKind::Import),
    (b"require:", ImportKind::Require),
    (b"dynamic:", ImportKind::DynamicImport),
    (b"accept:", ImportKind::HotAccept),
];

// An import record, as `import:3`.
fn link_of(word: &[u8]) -> Option<Setting>
    ensures { result ≡ link_of word.now }
{
    // No `find_map`: what the library says of it leaves open that the answer at which it stopped is a `Some`.
    for (prefix, kind) in LINKS {
        if let Some(to) = word.strip_prefix(prefix) {
            return link_to(kind, to);
        }
    }
    None
}

// An output mark, as `mark=7`, or an import record.
fn mark_of(word: &[u8]) -> Option<Setting>
    ensures { result ≡ mark_of word.now }
{
    match word.strip_prefix(b"mark=") {
        Some(digits) => number_of(digits).ok().map(Setting::Mark),
        None => link_of(word),
    }
}

// What the word sets, if it is one that a row can be told.
pub(crate) fn setting_of(word: &[u8]) -> Option<Setting>
    ensures { result ≡ setting_of word.now }
{
    match word {
        b"external" => Some(Setting::Outside),
        b"self" => Some(Setting::SelfAccepting),
        b"lazy" => Some(Setting::LazyExport),
        b"entry" => Some(Setting::Entry),
        b"esm" => Some(Setting::Esm),
        b"cjs" => Some(Setting::CommonJs),
        _ => mark_of(word),
    }
}
