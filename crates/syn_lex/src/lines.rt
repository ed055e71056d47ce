// A file as lines: a line is a slice of the file, and no memory is taken for its bytes.
ghost use Rattle.std.specs.Prelude.{◌≡◌, ◌++◌, ◌∷◌, [], ◌↔◌, IsTrue, MatchOption, IfOk, length, map, slice_index_or};
ghost use Rattle.syn_lex.specs.TextLines.{IsCut, OneCut, Without};

use std::alloc::Global;
use syn_term::NoMemory;

/// Why a file is refused.
#[derive(Clone, Copy, Debug, PartialEq, Eq)]
pub enum FileError {
    /// The first line, counted from 1, that doesn't go on from those before it.
    Bad(u64),
    /// Memory was refused.
    NoMemory,
}

/// A file as the lines that line feeds end, and what follows the last line feed.
#[derive(Drop)]
pub struct Cut<'a> {
    pub lines: Vec<&'a [u8]>,
    pub rest: &'a [u8],
}

/// The texts before and after the first such byte, or `None` where the text has no such byte.
pub fn split_at(text: &[u8], mark: u8) -> Option<(&[u8], &[u8])>
    ensures { MatchOption result (Without mark text.now) (λ p. Without mark p.0.now × (text.now ≡ p.0.now ++ mark ∷ p.1.now)) }
{
    for (i, byte) in text.iter().enumerate() {
        if *byte == mark {
            return Some((&text[..i], &text[i + 1..]));
        }
    }
    None
}

fn push<'a>(lines: &mut Vec<&'a [u8]>, line: &'a [u8]) -> Result<(), NoMemory>
    ensures { IfOk result (λ _. map (λ z. z.now) lines.new.items ≡ map (λ z. z.now) lines.old.items ++ line.now ∷ []) }
{
    match lines.push(line) {
        Ok(()) => Ok(()),
        Err(_) => Err(NoMemory),
    }
}

fn cut_at_feeds(alloc: Global, bytes: &[u8]) -> Result<Cut<'_>, NoMemory>
    ensures { IfOk result (λ cut. IsCut bytes.now (map (λ line. line.now) cut.lines.items) cut.rest.now) }
{
    let mut lines = Vec::new(alloc);
    let mut rest = bytes;
    while let Some((line, after)) = split_at(rest, b'\n') {
        push(&mut lines, line)?;
        rest = after;
    }
    Ok(Cut { lines, rest })
}

/// Cuts a file into its lines, in order. A line feed ends a line, and what follows the last one is the
/// rest. It takes 16 bytes of memory a line, and `NoMemory` is the one error.
pub fn split_lines(alloc: Global, bytes: &[u8]) -> Result<Cut<'_>, NoMemory>
    ensures cut { IfOk result (λ cut. IsCut bytes.now (map (λ line. line.now) cut.lines.items) cut.rest.now) }
    ensures one { OneCut bytes.now }
{
    cut_at_feeds(alloc, bytes)
}

impl<'a> Cut<'a> {
    /// The line with this number, counted from 0, or an empty line where there are fewer.
    pub fn line_at(&self, k: usize) -> &'a [u8]
        ensures { result.now ≡ slice_index_or (map (λ line. line.now) self.now.lines.items) k [] }
    {
        match self.lines.as_slice().get(k) {
            None => &[],
            Some(line) => line,
        }
    }

    /// Whether there are so many lines and nothing after them.
    pub fn ends_after(&self, count: usize) -> bool
        ensures { IsTrue result ↔ ((length (map (λ line. line.now) self.now.lines.items) ≡ count) × (self.now.rest.now ≡ [])) }
    {
        self.lines.len() == count && self.rest.is_empty()
    }
}
