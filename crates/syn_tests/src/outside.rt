// Words of no form, and what the outside does to a check: small steps, faults, files that are not
// there and files that are too long.
use crate::bench::{Outside, PRINTED, WELL, WORDS, answer, assert_answer, identity, with};
use std::test::Fail;
use syn_app::Which;

// The most bytes of a file.
const MOST: usize = 4_194_304;

/// One byte a call, of which one read fails. A file of n bytes takes n + 1 calls, the last of which
/// finds its end; the files have 13, 53 and 66 bytes.
fn reading(read: u64) -> Outside {
    Outside {
        step: 1,
        read,
        put: 0,
    }
}

/// Eight bytes a call, of which one put fails. The program has 30 bytes.
fn putting(put: u64) -> Outside {
    Outside {
        step: 8,
        read: 0,
        put,
    }
}

#[test]
fn tells_whose_read_failed(rt: HostRuntime) -> Result<(), Fail> {
    for (number, want) in [
        (0, PRINTED),
        (1, "read fault: theory"),
        (14, "read fault: theory"),
        (15, "read fault: spec"),
        (68, "read fault: spec"),
        (69, "read fault: derivation"),
        (135, "read fault: derivation"),
        (136, PRINTED),
    ] {
        let outside = reading(number);
        assert_answer(&rt, rt.alloc(), WORDS, identity(), outside, want)?;
    }
    Ok(())
}

#[test]
fn tells_failed_writes(rt: HostRuntime) -> Result<(), Fail> {
    for (number, want) in [
        (1, "write fault"),
        (2, "write fault program "),
        (4, "write fault program same(a: nat): na"),
        (5, PRINTED),
    ] {
        let outside = putting(number);
        assert_answer(&rt, rt.alloc(), WORDS, identity(), outside, want)?;
    }
    Ok(())
}

// The cabinet's first call fails, so where the answer is another none was made.
#[test]
fn judges_words_first(rt: HostRuntime) -> Result<(), Fail> {
    let alloc = rt.alloc();
    let none = answer(alloc, &[], identity(), reading(1))?;
    assert_eq!(rt; none.as_str(), "words: no such form");
    for words in [
        "check",
        "check empty same",
        "check empty same d1 d1",
        "check  same d1",
        "check empty  d1",
        "check empty same ",
        "find empty same d1",
        "Check empty same d1",
        "--help",
        "eval",
        "eval empty",
        "eval  same 3",
        "eval empty  3",
    ] {
        let want = "words: no such form";
        assert_answer(&rt, alloc, words, identity(), reading(1), want)?;
    }
    Ok(())
}

#[test]
fn tells_which_file_is_not_there(rt: HostRuntime) -> Result<(), Fail> {
    for (words, want) in [
        ("check none same d1", "read fault: theory"),
        ("check empty none d1", "read fault: spec"),
        ("eval none same 3", "read fault: theory"),
        ("eval empty none 3", "read fault: program"),
        ("check empty same none", "read fault: derivation"),
        ("check none none none", "read fault: theory"),
    ] {
        assert_answer(&rt, rt.alloc(), words, identity(), WELL, want)?;
    }
    Ok(())
}

#[test]
fn limits_files(rt: HostRuntime) -> Result<(), Fail> {
    let alloc = rt.alloc();
    let more = vec![in alloc; b'x'; MOST + 1]?;
    for (which, length, want) in [
        (Which::Theory, MOST, "bad theory: line 1"),
        (Which::Theory, MOST + 1, "too long: theory"),
        (Which::Spec, MOST + 1, "too long: spec"),
        (Which::Derivation, MOST + 1, "too long: derivation"),
    ] {
        assert!(rt; length <= more.len());
        let texts = with(which, &more[..length]);
        assert_answer(&rt, alloc, WORDS, texts, WELL, want)?;
    }
    Ok(())
}
