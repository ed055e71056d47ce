// Which texts are theories.
use crate::bench::{Form, PRINTED, walk};
use std::test::Fail;

// The last name but one has 64 bytes.
const GOOD: &str = "\
theory empty
theory λόγος
theory a23456789_123456789_123456789_123456789_123456789_123456789_1234
theory theory
";

// The name of the last has 65 bytes.
const REFUSED: &str = " => 1
~ => 1
theory empty => 1
theory empty~theory empty~ => 2
theory empty~~ => 2
theory empty~  => 2
spec empty~ => 1
theory nat~ => 1
theory 1~ => 1
theory\tempty~ => 1
theory empty ~ => 1
theory  empty~ => 1
theory !~ => 1
theory a23456789_123456789_123456789_123456789_123456789_123456789_12345~ => 1
";

#[test]
fn judges_theories(rt: HostRuntime) -> Result<(), Fail> {
    let good = Form {
        files: "@~;=;=",
        answer: PRINTED,
    };
    walk(&rt, rt.alloc(), good, GOOD)?;
    let refused = Form {
        files: "@;=;=",
        answer: "bad theory: line #",
    };
    walk(&rt, rt.alloc(), refused, REFUSED)
}
