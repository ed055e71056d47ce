// What lines are taken for: their tokens, by kinds and places, or the place of the first byte that
// begins nothing.
use std::alloc::Global;
use std::fmt::Write;
use std::process::Abort;
use std::test::Fail;
use syn_lex::{LexError, tokens};

const TOKENS: &str = "⇒
f(x, y)⇒Name 0-1;Sign 1-2;Name 2-3;Sign 3-4;Name 5-6;Sign 6-7;
<->->-⇒Sign 0-3;Sign 3-5;Sign 5-6;
0 1000 1001⇒Number 0-1;Number 2-6;Number 7-11;
1234567⇒Number 0-7;
1a⇒Number 0-1;Name 1-2;
λόγος 間隙⇒Name 0-10;Name 11-17;
a\u{301} b⇒Name 0-3;Name 4-5;
a\r⇒Name 0-1;
nat\t# nat #⇒Name 0-3;
# é⇒
?1:L⇒RowVar 0-4;
?1:na⇒RowVar 0-5;
?1:nat⇒RowVar 0-2;Sign 2-3;Name 3-6;
?1:s⇒RowVar 0-2;Sign 2-3;Name 3-4;
?1:⇒RowVar 0-2;Sign 2-3;
?1a⇒RowVar 0-2;Name 2-3;
!gap.1⇒Skolem 0-6;
!induct.2⇒Skolem 0-9;
!gap.1a⇒Skolem 0-6;Name 6-7;
a23456789_123456789_123456789_123456789_123456789_123456789_1234⇒Name 0-64;";

const BEFORE_BRACKETS: &str = "nat(⇒Name 0-3;Sign 3-4;
λ(⇒Name 0-2;Sign 2-3;
goal(⇒Name 0-4;Sign 4-5;
12(⇒Number 0-2;Sign 2-3;
?1(⇒RowVar 0-2;Sign 2-3;
?1:list(⇒RowVar 0-7;Sign 7-8;
!gap.1(⇒Skolem 0-6;Sign 6-7;
a23456789_123456789_123456789_123456789_123456789_123456789_1234(⇒Name 0-64;Sign 64-65;
a23456789_123456789_123456789_123456789_123456789_123456789_12345(⇒at 0";

const REFUSED: &str = "a <- b⇒at 2
12345678⇒at 0
a 007⇒at 2
_a⇒at 0
\u{301}a⇒at 0
?0⇒at 0
?01⇒at 0
?12345678⇒at 0
?1:a23456789_123456789_123456789_123456789_123456789_123456789_12345⇒at 3
!gap.0⇒at 0
!gap.12345678⇒at 0
!nat.1⇒at 0
!gap .1⇒at 0
a23456789_123456789_123456789_123456789_123456789_123456789_12345⇒at 0";

/// The tokens of the line, or the place of its first byte that begins nothing.
fn shown(alloc: Global, line: &[u8]) -> Result<String, Fail> {
    let mut text = String::new(alloc);
    match tokens(alloc, line) {
        Ok(found) => {
            for token in found.as_slice() {
                write!(text, "{:?} {}-{};", token.kind, token.from, token.to)?;
            }
        }
        Err(LexError::At(place)) => write!(text, "at {place}")?,
        Err(LexError::NoMemory) => return Err(Fail::new("no memory")),
    }
    Ok(text)
}

/// Each case is a line, `⇒`, and what the line is taken for.
fn tells<R: Abort>(rt: &R, alloc: Global, cases: &str) -> Result<(), Fail> {
    for case in cases.lines() {
        let Some((line, want)) = case.split_once('⇒') else {
            return Err(Fail::new("no arrow"));
        };
        let got = shown(alloc, line.as_bytes())?;
        assert_eq!(rt; got.as_str(), want, "at {line}");
    }
    Ok(())
}

#[test]
fn tells_tokens(rt: HostRuntime) -> Result<(), Fail> {
    tells(&rt, rt.alloc(), TOKENS)
}

#[test]
fn tells_tokens_before_brackets(rt: HostRuntime) -> Result<(), Fail> {
    tells(&rt, rt.alloc(), BEFORE_BRACKETS)
}

#[test]
fn refuses_lines(rt: HostRuntime) -> Result<(), Fail> {
    tells(&rt, rt.alloc(), REFUSED)
}

/// The line begins nothing at the place that is told.
fn refuses(rt: &impl Abort, alloc: Global, line: &[u8], want: &str) -> Result<(), Fail> {
    let got = shown(alloc, line)?;
    assert_eq!(rt; got.as_str(), want);
    Ok(())
}

/// A line feed begins nothing, nor does a byte that is no part of UTF-8, in a comment either.
#[test]
fn refuses_bytes(rt: HostRuntime) -> Result<(), Fail> {
    refuses(&rt, rt.alloc(), b"\n", "at 0")?;
    refuses(&rt, rt.alloc(), b"a\nb", "at 1")?;
    refuses(&rt, rt.alloc(), b"f(0) # x\n= b", "at 8")?;
    refuses(&rt, rt.alloc(), b"# \n\xff", "at 2")?;
    refuses(&rt, rt.alloc(), b"# \xff\n", "at 2")?;
    refuses(&rt, rt.alloc(), b"a # b\xff c", "at 5")?;
    refuses(&rt, rt.alloc(), b"a \xce", "at 2")
}
