// Rows in the words of the script.
use packed::view::RowView;
use rows::{ExportsKind, Flags, ImportKind, ImportRecord, Sort};
use std::fmt;

// A name: its own bytes where they make a plain word, else in base sixteen.
#[derive(Clone, Copy)]
struct Name<'a>(&'a [u8]);

impl Name<'_> {
    // Its bytes as text, where the script would read them as they are.
    fn plain(&self) -> Option<&str> {
        let is_plain = !self.0.starts_with(b"x'")
            && self.0.iter().all(|b| b.is_ascii_graphic() && *b != b'#');
        if is_plain {
            str::from_utf8(self.0).ok()
        } else {
            None
        }
    }
}

impl fmt::Display for Name<'_> {
    fn fmt<W: fmt::Write>(&self, f: &mut fmt::Formatter<W>) -> fmt::Result {
        if let Some(text) = self.plain() {
            return f.write_str(text);
        }
        f.write_str("x'")?;
        for b in self.0 {
            write!(f, "{b:02x}")?;
        }
        f.write_char('\'')
    }
}

// The flags that are set, with a blank before each.
#[derive(Clone, Copy)]
struct FlagWords(Flags);

impl fmt::Display for FlagWords {
    fn fmt<W: fmt::Write>(&self, f: &mut fmt::Formatter<W>) -> fmt::Result {
        if self.0.self_accepting {
            f.write_str(" self")?;
        }
        if self.0.lazy_export {
            f.write_str(" lazy")?;
        }
        if self.0.entry {
            f.write_str(" entry")?;
        }
        Ok(())
    }
}

// An import record.
#[derive(Clone, Copy)]
struct Link(ImportRecord);

impl fmt::Display for Link {
    fn fmt<W: fmt::Write>(&self, f: &mut fmt::Formatter<W>) -> fmt::Result {
        f.write_str(match self.0.kind {
            ImportKind::Import => "import:",
            ImportKind::Require => "require:",
            ImportKind::DynamicImport => "dynamic:",
            ImportKind::HotAccept => "accept:",
        })?;
        match self.0.target {
            Some(row) => write!(f, "{row}"),
            None => f.write_char('-'),
        }
    }
}

// A row, as the script would tell it.
#[derive(Clone, Copy)]
pub(crate) struct Shown<'a>(pub(crate) RowView<'a>);

impl fmt::Display for Shown<'_> {
    fn fmt<W: fmt::Write>(&self, f: &mut fmt::Formatter<W>) -> fmt::Result {
        let head = self.0.head;
        let facts = head.facts;
        write!(
            f,
            "row {} {} {}",
            head.number,
            Name(head.id),
            Name(head.stable_id)
        )?;
        if facts.sort == Sort::External {
            f.write_str(" external")?;
        }
        write!(f, "{}", FlagWords(facts.flags))?;
        f.write_str(match facts.exports {
            ExportsKind::None => "",
            ExportsKind::Esm => " esm",
            ExportsKind::CommonJs => " cjs",
        })?;
        write!(f, " mark={}", facts.mark)?;
        for record in self.0.imports {
            write!(f, " {}", Link(record))?;
        }
        Ok(())
    }
}
