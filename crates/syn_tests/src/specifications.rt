// Which texts are specifications, and what programs are printed of them.
use crate::bench::{Form, walk};
use std::alloc::{AllocError, Global};
use std::test::Fail;

const BODIES: &str = "a\n0\n3\n1000\ns(1000)\ns(a)\ns(s(a))";

const NO_CONDITIONS: &str = "?1\n1001\n01\nb\nz\nsame\ns(a\ns a\ns()\n";

const REFUSED: &str = " => 1
spec nat~ => 1
spec same~ => 2
spec x~ensures z = a~ => 2
spec x~program same(same: nat): z: nat~ensures z = same~ => 2
spec x~program same(a: nat): same: nat~ensures same = a~ => 2
spec x~program same(a: nat): a: nat~ensures a = a~ => 2
spec x~program same(a: nat): z:nat~ensures z = a~ => 2
spec x~program same(a: nat): z: nat~ => 3
spec x~program same(a: nat): z: nat~ensures y = a~ => 3
spec x~program same(a: nat): z: nat~ensures z = a => 3
spec x~program same(a: nat): z: nat~ensures z = a~~ => 4
";

/// A specification and its derivation, whose program gives the term.
const GIVES: Form<'static> = Form {
    files: "=;spec same~program same(a: nat): z: nat~ensures z = @~;derivation 1~1 goal: goal ?1 = @ | ?1~2 reflex 1 -: goal true | @~",
    answer: "done program same(a: nat): nat~  @~",
};

const NO_CONDITION: Form<'static> = Form {
    files: "=;spec same~program same(a: nat): z: nat~ensures z = @~;=",
    answer: "bad spec: line 3",
};

/// `s(..)` so many times round the input.
fn nested(alloc: Global, count: usize) -> Result<String, AllocError> {
    let mut term = String::new(alloc);
    for _ in 0..count {
        term.push_str("s(")?;
    }
    term.push('a')?;
    for _ in 0..count {
        term.push(')')?;
    }
    Ok(term)
}

#[test]
fn judges_conditions(rt: HostRuntime) -> Result<(), Fail> {
    let alloc = rt.alloc();
    walk(&rt, alloc, GIVES, BODIES)?;
    walk(&rt, alloc, GIVES, nested(alloc, 1198)?.as_str())?;
    walk(&rt, alloc, NO_CONDITION, NO_CONDITIONS)?;
    walk(&rt, alloc, NO_CONDITION, nested(alloc, 1199)?.as_str())
}

#[test]
fn prints_names(rt: HostRuntime) -> Result<(), Fail> {
    let greek = Form {
        files: "=;spec @~program @(#: nat): ω: nat~ensures ω = #~;derivation 1~1 goal: goal ?1 = # | ?1~2 reflex 1 -: goal true | #~",
        answer: "done program @(#: nat): nat~  #~",
    };
    walk(&rt, rt.alloc(), greek, "ταυτό => α")
}

#[test]
fn refuses_specifications(rt: HostRuntime) -> Result<(), Fail> {
    let refused = Form {
        files: "=;@;=",
        answer: "bad spec: line #",
    };
    walk(&rt, rt.alloc(), refused, REFUSED)
}
