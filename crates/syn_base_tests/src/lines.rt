// Files as lines and the rest behind the last line feed.
use std::alloc::Global;
use syn_lex::split_lines;

/// Whether the bytes are cut into these lines and this rest.
fn is_cut_into(alloc: Global, bytes: &[u8], lines: &[&[u8]], rest: &[u8]) -> bool {
    match split_lines(alloc, bytes) {
        Ok(cut) => cut.lines.as_slice() == lines && cut.rest == rest,
        Err(_) => false,
    }
}

#[test]
fn cuts_files(rt: HostRuntime) {
    let alloc = rt.alloc();
    assert!(rt; is_cut_into(alloc, b"", &[], b""));
    assert!(rt; is_cut_into(alloc, b"\n", &[b""], b""));
    assert!(rt; is_cut_into(alloc, b"a\n", &[b"a"], b""));
    assert!(rt; is_cut_into(alloc, b"a", &[], b"a"));
    assert!(rt; is_cut_into(alloc, b"a\n\nb", &[b"a", b""], b"b"));
    assert!(rt; is_cut_into(alloc, b"\xff\r\nb", &[b"\xff\r"], b"b"));
}
