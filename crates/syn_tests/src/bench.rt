// The bench of the tests: three files in memory, the top call on them, and what it came to as one
// text: the line of the status, and behind it what was printed, with `~` for a line feed. Tables of
// cases are texts too, one case a line, and one walk goes over any of them.
ghost use Rattle.std.specs.Prelude.{◌≡◌, ◌<◌, IfOk, string_bytes};
ghost use Rattle.syn_outside.specs.Files.{HasDistinctNames};
ghost use Rattle.syn_outside.specs.Memory.{all_seen};

use std::alloc::{AllocError, Global};
use std::process::Abort;
use std::str;
use std::test::Fail;
use syn_app::{Status, Which, status_line, synth};
use syn_outside::{MemCabinet, MemSink};

pub const WORDS: &str = "check empty same d1";

/// The line of Done, and behind it the program of the identity.
pub const PRINTED: &str = "done program same(a: nat): nat~  a~";

/// The bytes of the three files.
#[derive(Clone, Copy)]
pub struct Texts<'a> {
    pub theory: &'a [u8],
    pub spec: &'a [u8],
    pub deriv: &'a [u8],
}

const THEORY: &str = "theory empty\n";

const SPEC: &str = "spec same\nprogram same(a: nat): z: nat\nensures z = a\n";

const DERIV: &str = "derivation 1\n1 goal: goal ?1 = a | ?1\n2 reflex 1 -: goal true | a\n";

/// The files of the identity.
pub fn identity() -> Texts<'static> {
    Texts {
        theory: THEORY.as_bytes(),
        spec: SPEC.as_bytes(),
        deriv: DERIV.as_bytes(),
    }
}

/// The files of the identity, with these bytes in place of one of them.
pub fn with(which: Which, bytes: &[u8]) -> Texts<'_> {
    let same = identity();
    match which {
        Which::Theory => Texts {
            theory: bytes,
            ..same
        },
        Which::Spec => Texts {
            spec: bytes,
            ..same
        },
        Which::Derivation | Which::Program => Texts {
            deriv: bytes,
            ..same
        },
    }
}

/// What the outside does: how many bytes a call moves, and which read and which put fails, from 1.
#[derive(Clone, Copy)]
pub struct Outside {
    pub step: usize,
    pub read: u64,
    pub put: u64,
}

/// An outside in which nothing fails.
pub const WELL: Outside = Outside {
    step: 4096,
    read: 0,
    put: 0,
};

fn file(alloc: Global, name: &str, bytes: &[u8]) -> Result<(String, Vec<u8>), AllocError>
    ensures { IfOk result (λ file. string_bytes file.0 ≡ name.now) }
{
    Ok((
        String::from_str(alloc, name)?,
        Vec::from_slice(alloc, bytes)?,
    ))
}

fn files(alloc: Global, texts: Texts<'_>) -> Result<Vec<(String, Vec<u8>)>, AllocError>
    ensures { IfOk result (λ files. HasDistinctNames (all_seen files.items)) }
{
    let theory = file(alloc, "empty", texts.theory)?;
    let spec = file(alloc, "same", texts.spec)?;
    let deriv = file(alloc, "d1", texts.deriv)?;
    Ok(vec![in alloc; theory, spec, deriv]?)
}

/// A cabinet of the files `empty`, `same` and `d1`.
fn cabinet(alloc: Global, texts: Texts<'_>, outside: Outside) -> Result<MemCabinet, AllocError> {
    let fail = Vec::from_slice(alloc, &[outside.read])?;
    Ok(MemCabinet::new(files(alloc, texts)?, outside.step.max(1), fail))
}

fn sink(alloc: Global, outside: Outside) -> Result<MemSink, AllocError> {
    let fail = Vec::from_slice(alloc, &[outside.put])?;
    Ok(MemSink::new(outside.step.max(1), fail))
}

/// The words as the process has them, of a text with a space between.
pub fn owned(alloc: Global, words: &str) -> Result<Vec<String>, AllocError> {
    let mut list = Vec::new(alloc);
    for word in words.split(' ') {
        list.push(String::from_str(alloc, word)?)?;
    }
    Ok(list)
}

fn has(cab: &MemCabinet, name: &str, bytes: &[u8]) -> bool {
    match cab.file(name) {
        None => false,
        Some(kept) => kept == bytes,
    }
}

/// Whether the files are those of the texts.
fn is_kept(cab: &MemCabinet, texts: Texts<'_>) -> bool {
    has(cab, "empty", texts.theory) && has(cab, "same", texts.spec) && has(cab, "d1", texts.deriv)
}

/// Puts the text, with `~` for a line feed.
fn put_marked(out: &mut String, text: &str) -> Result<(), AllocError> {
    for c in text.chars() {
        out.push(if c == '\n' { '~' } else { c })?;
    }
    Ok(())
}

/// The line of the status, and behind it what was put.
fn told(alloc: Global, status: Status, put: &[u8], is_kept: bool) -> Result<String, Fail> {
    let mut line = status_line(alloc, &status)?;
    if !is_kept {
        line.push_str(" and other files")?;
    }
    if !put.is_empty() {
        line.push(' ')?;
        put_marked(&mut line, str::from_utf8(put).unwrap_or("no text"))?;
    }
    Ok(line)
}

/// The top call on the words and the sink, over a cabinet of the files.
fn told_of(
    alloc: Global,
    words: &[String],
    texts: Texts<'_>,
    outside: Outside,
    sink: &mut MemSink,
) -> Result<String, Fail> {
    let mut cab = cabinet(alloc, texts, outside)?;
    let status = synth(alloc, words, &mut cab, sink);
    let is_kept = is_kept(&cab, texts);
    drop(cab);
    told(alloc, status, sink.text(), is_kept)
}

/// What the top call comes to on the words, over these files and a sink.
pub fn answer(
    alloc: Global,
    words: &[String],
    texts: Texts<'_>,
    outside: Outside,
) -> Result<String, Fail> {
    let mut sink = sink(alloc, outside)?;
    told_of(alloc, words, texts, outside, &mut sink)
}

/// Asserts what the top call comes to on words with a space between.
pub fn assert_answer<R: Abort>(
    rt: &R,
    alloc: Global,
    words: &str,
    texts: Texts<'_>,
    outside: Outside,
    want: &str,
) -> Result<(), Fail> {
    let words = owned(alloc, words)?;
    let got = answer(alloc, words.as_slice(), texts, outside)?;
    assert_eq!(rt; got.as_str(), want);
    Ok(())
}

/// Tables of the same cases: what `@` and `#` in both texts become stands in a line of the table,
/// with ` => ` between. The files are three texts with `;` between, `~` for a line feed and `!` for a
/// byte that is no text; an `=` alone is the file of the identity.
#[derive(Clone, Copy)]
pub struct Form<'a> {
    pub files: &'a str,
    pub answer: &'a str,
}

/// The text with both parts of a line filled in.
fn filled(alloc: Global, text: &str, first: &str, second: &str) -> Result<String, AllocError> {
    let mut out = String::new(alloc);
    for c in text.chars() {
        match c {
            '@' => out.push_str(first)?,
            '#' => out.push_str(second)?,
            _ => out.push(c)?,
        }
    }
    Ok(out)
}

/// The bytes of a text with marks for line feeds and for a byte that is no text.
pub fn unmarked(alloc: Global, text: &str) -> Result<Vec<u8>, AllocError> {
    let mut bytes = Vec::new(alloc);
    for byte in text.as_bytes() {
        bytes.push(match *byte {
            b'~' => b'\n',
            b'!' => 0xff,
            other => other,
        })?;
    }
    Ok(bytes)
}

/// The part, unless it stands for the usual one.
fn part<'a>(part: &'a [u8], usual: &'static str) -> &'a [u8] {
    match part {
        [b'='] => usual.as_bytes(),
        _ => part,
    }
}

/// The bytes before the first `;`, and those after it.
fn halves(bytes: &[u8]) -> (&[u8], &[u8]) {
    for (i, byte) in bytes.iter().enumerate() {
        if *byte == b';' {
            return (&bytes[..i], &bytes[i + 1..]);
        }
    }
    (bytes, &[])
}

/// The three files that the bytes say.
fn texts_in(bytes: &[u8]) -> Texts<'_> {
    let (theory, others) = halves(bytes);
    let (spec, deriv) = halves(others);
    let theory = part(theory, THEORY);
    let spec = part(spec, SPEC);
    let deriv = part(deriv, DERIV);
    Texts {
        theory,
        spec,
        deriv,
    }
}

/// Asserts that the check of the form's files comes to the form's answer, for a line of the table.
fn assert_line<R: Abort>(rt: &R, alloc: Global, form: Form<'_>, line: &str) -> Result<(), Fail> {
    let (first, second) = line.split_once(" => ").unwrap_or((line, ""));
    let files = unmarked(alloc, filled(alloc, form.files, first, second)?.as_str())?;
    let want = filled(alloc, form.answer, first, second)?;
    let texts = texts_in(files.as_slice());
    assert_answer(rt, alloc, WORDS, texts, WELL, want.as_str())
}

/// Asserts so for each line of the table.
pub fn walk<R: Abort>(rt: &R, alloc: Global, form: Form<'_>, table: &str) -> Result<(), Fail> {
    for line in table.lines() {
        assert_line(rt, alloc, form, line)?;
    }
    Ok(())
}
