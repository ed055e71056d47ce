// Which texts are names, names of Skolem symbols, reserved words and numbers.
use syn_term::{decimal_number, is_name, is_reserved, is_skolem_name};

/// The longest is of 64 bytes.
const NAMES: &str = "λόγος 間隙 a_1 nats \
    a23456789_123456789_123456789_123456789_123456789_123456789_1234";

const NO_NAMES: &str = "_a \u{301}a 1a a.b nat induct \
    a23456789_123456789_123456789_123456789_123456789_123456789_12345";

const SKOLEM_NAMES: &str = "!gap.1 !induct.2 !goal.9999999 !λ.10";

const NO_SKOLEM_NAMES: &str = "!gap.0 !gap.01 !gap. gap.1 !gap.10000000 !nat.1 !gap.+1";

#[test]
fn tells_names(rt: HostRuntime) {
    for text in NAMES.split(' ') {
        assert!(rt; is_name(text));
    }
    for text in NO_NAMES.split(' ') {
        assert!(rt; !is_name(text));
    }
    assert!(rt; !is_name(""));
}

#[test]
fn tells_skolem_names(rt: HostRuntime) {
    for text in SKOLEM_NAMES.split(' ') {
        assert!(rt; is_skolem_name(text));
    }
    for text in NO_SKOLEM_NAMES.split(' ') {
        assert!(rt; !is_skolem_name(text));
    }
}

#[test]
fn tells_words_and_numbers(rt: HostRuntime) {
    assert!(rt; is_reserved(b"nat") && is_reserved(b"induct") && !is_reserved(b"nats"));
    assert_eq!(rt; decimal_number("4294967295"), Some(4_294_967_295));
    for text in "4294967296 01 +1 -1 x".split(' ') {
        assert_eq!(rt; decimal_number(text), None);
    }
}
