// The words of a line.
ghost use Rattle.std.specs.Prelude.{◌≡◌, ◌≤◌, length, Ok, Err, cond, MatchResult, None, Some};
ghost use Rattle.std.specs.Option.{option_map};
ghost use Rattle.std.specs.Iterator.{at_most};
ghost use Rattle.script.specs.declared.call.LineFault.TheVariants.{MissingWord, SurplusWord};
ghost use Rattle.script.specs.Words.{kind_of, span, next_word, at_end};

use crate::call::LineFault;

// What a byte is to the words of a line.
#[derive(Clone, Copy, PartialEq, Eq)]
pub enum ByteKind {
    Blank,
    Comment,
    Letter,
}

fn kind_of(b: u8) -> ByteKind
    ensures { result ≡ kind_of b }
{
    match b {
        b' ' | b'\t' | b'\r' => ByteKind::Blank,
        b'#' => ByteKind::Comment,
        _ => ByteKind::Letter,
    }
}

// How many bytes of one kind stand at the front.
fn span_of(kind: ByteKind, bytes: &[u8]) -> usize
    ensures value { result ≡ span kind bytes.now }
    ensures within { result ≤ length bytes.now }
{
    bytes.iter().take_while(|b| kind_of(**b) == kind).count()
}

// The words of a line that are still to be read.
#[derive(Drop)]
pub(crate) struct Words<'a> {
    pub(crate) rest: &'a [u8],
}

impl<'a> Iterator for Words<'a> {
    type Item = &'a [u8];

    ghost next_gives = { λ s r t. option_map (λ w. (w.now, t.rest.now)) r ≡ next_word s.rest.now };

    // A word takes some bytes.
    ghost remaining = { λ s. at_most (length s.rest.now) };

    fn next(&mut self) -> Option<&'a [u8]> {
        let rest = &self.rest[span_of(ByteKind::Blank, self.rest)..];
        let (word, rest) = rest.split_at(span_of(ByteKind::Letter, rest));
        if word.is_empty() {
            return None;
        }
        self.rest = rest;
        Some(word)
    }
}

impl<'a> Words<'a> {
    // The next word, where there has to be one.
    pub(crate) fn next_word(&mut self) -> Result<&'a [u8], LineFault>
        ensures { MatchResult result (λ w. Some (w.now, self.new.rest.now) ≡ next_word self.old.rest.now) (λ f. (f ≡ MissingWord) × (None ≡ next_word self.old.rest.now)) }
    {
        self.next().ok_or(LineFault::MissingWord)
    }

    // No word is left over.
    pub(crate) fn end(mut self) -> Result<(), LineFault>
        ensures { result ≡ cond (at_end self.entry.rest.now) (Ok tt) (Err SurplusWord) }
    {
        match self.next() {
            None => Ok(()),
            Some(_) => Err(LineFault::SurplusWord),
        }
    }
}
