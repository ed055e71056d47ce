// Which texts are derivations, and which derivations of the identity are accepted.
use crate::bench::{Form, PRINTED, walk};
use std::test::Fail;

const ACCEPTED: &str = "\
1 goal: goal ?7 = a | ?7~2 reflex 1 -: goal true | a
1 goal: goal ?9999999 = a | ?9999999~2 reflex 1 -: goal true | a
1 goal: goal ?1 = a | ?1~2 reflex 1 -: goal a = a | a
1 goal: goal ?1 = a | ?1~2 goal: goal ?2 = a | ?2~3 reflex 1 -: goal true | a
";

// Behind the first line and the row of the goal.
const SECOND_ROWS: &str = " => not final
2 reflex 1 -: goal true | s(a)~ => row 2 does not follow
2 reflex 2 -: goal true | a~ => row 2 does not follow
2 reflex 3 -: goal true | a~3 reflex 1 -: goal true | a~ => row 2 does not follow
2 reflex 0 -: goal true | a~ => row 2 does not follow
2 reflex 9999999 -: goal true | a~ => row 2 does not follow
2 goal: goal true | a~ => row 2 does not follow
2 reflex 1 -: goal ?1 = a | ?1~ => row 2 does not follow
2 reflex 1 -: goal true | a~3 reflex 2 -: goal true | a~ => row 3 does not follow
2 goal: goal ?2 = a | ?2~ => not final
2 reflex 1 -: goal true | a~3 goal: goal ?1 = a | ?1~ => not final
2 reflex 1 -: goal tr => bad derivation: line 3
2 reflex 1 -: goal true | a => bad derivation: line 3
3 reflex 1 -: goal true | a~ => bad derivation: line 3
02 reflex 1 -: goal true | a~ => bad derivation: line 3
2 reflex 01 -: goal true | a~ => bad derivation: line 3
2 reflex 10000000 -: goal true | a~ => bad derivation: line 3
2 reflex 1 -: goal true | 01~ => bad derivation: line 3
2 reflex 1 -: goal true | 1001~ => bad derivation: line 3
2 reflex 1 -: goal true | ?0~ => bad derivation: line 3
2 reflex 1 -: goal true | ?10000000~ => bad derivation: line 3
2 reflex 1 -: goal true | b~ => bad derivation: line 3
2 reflex 1 -: goal true | s(a~ => bad derivation: line 3
2 reflex 1 -: goal true |  a~ => bad derivation: line 3
2 split 1 1: goal true | a~ => bad derivation: line 3
~ => bad derivation: line 3
";

const BEGINNINGS: &str = " => bad derivation: line 1
derivation 1~ => not final
derivation 1 => bad derivation: line 1
derivation 2~ => bad derivation: line 1
derivation 1~~ => bad derivation: line 2
derivation 1~1 reflex 1 -: goal true | a~ => row 1 does not follow
derivation 1~1 goal: goal ?1 = a | ?2~ => row 1 does not follow
derivation 1~!~ => bad derivation: line 2
";

#[test]
fn judges_derivations(rt: HostRuntime) -> Result<(), Fail> {
    let alloc = rt.alloc();
    let accepted = Form {
        files: "=;=;derivation 1~@~",
        answer: PRINTED,
    };
    walk(&rt, alloc, accepted, ACCEPTED)?;
    let second = Form {
        files: "=;=;derivation 1~1 goal: goal ?1 = a | ?1~@",
        answer: "#",
    };
    walk(&rt, alloc, second, SECOND_ROWS)?;
    let beginning = Form {
        files: "=;=;@",
        answer: "#",
    };
    walk(&rt, alloc, beginning, BEGINNINGS)
}
