// Worked derivations: each step gives the row of its line, but for rules that aren't built. And steps that give nothing.
use crate::given::{given_text, gives_rows};
use std::process::Abort;
use std::test::Fail;

pub const MAX2: &str = "\
1 goal: goal le(a, ?1) and le(b, ?1) and (?1 = a or ?1 = b) | ?1
2 reflex 1 3.1: goal le(a, a) and le(b, a) | a
3 reflex 1 3.2: goal le(a, b) and le(b, b) | b
4 axiom refl: assertion le(?1, ?1)
5 resolve 2 1 4 -: goal le(b, a) | a
6 resolve 3 2 4 -: goal le(a, b) | b
7 axiom total: assertion le(?1, ?2) or le(?2, ?1)
8 resolve 5 - 7 2: goal not le(a, b) | a
9 resolve 6 - 8 1: goal true | if le(a, b) then b else a
10 def le 2: assertion (le(?1, s(?2)) -> (?1 = s(?2) or le(?1, ?2))) and ((?1 = s(?2) or le(?1, ?2)) -> le(?1, s(?2)))";

pub const TWICE: &str = "\
1 goal: goal ?1 = dbl(a) | ?1
2 axiom cases: assertion ?1 = 0 or ?1 = s(p(?1))
3 equal 2 2 lr 1 2.1: goal not a = 0 and ?1 = dbl(s(p(a))) | ?1
4 def dbl 2: assertion dbl(s(?1)) = s(s(dbl(?1)))
5 equal 4 - lr 3 2.2: goal not a = 0 and ?1 = s(s(dbl(p(a)))) | ?1
6 induct: assertion below(?1, a) -> twice(?1) = dbl(?1)
7 equal 6 2 rl 5 2.2.1.1: goal below(p(a), a) and not a = 0 and ?1 = s(s(twice(p(a)))) | ?1
8 reflex 7 3: goal below(p(a), a) and not a = 0 | s(s(twice(p(a))))
9 axiom down: assertion ?1 = 0 or below(p(?1), ?1)
10 resolve 8 1 9 2: goal not a = 0 | s(s(twice(p(a))))
11 equal 10 1 lr 1 2.1: goal ?1 = dbl(0) | if a = 0 then ?1 else s(s(twice(p(a))))
12 def dbl 1: assertion dbl(0) = 0
13 equal 12 - lr 11 2: goal ?1 = 0 | if a = 0 then ?1 else s(s(twice(p(a))))
14 reflex 13 -: goal true | if a = 0 then 0 else s(s(twice(p(a))))
15 equal 4 - lr 4 2.1.1: assertion dbl(s(s(?1))) = s(s(s(s(dbl(?1)))))";

const OVER: &str = "\
1 goal: goal le(a, ?1) and ?1 = s(b) | ?1
2 reflex 1 2: goal le(a, s(b)) | s(b)
3 axiom low: assertion le(?1, s(?1))
4 axiom relate: goal le(a, b) | s(b)
5 input: assertion le(a, b)
6 resolve 4 - 5 -: goal true | s(b)
7 resolve 5 - 5 -: assertion true";

const JOIN: &str = "\
1 goal: goal ?1:L = app(a, b) | ?1:L
2 axiom listcases: assertion ?1:L = nil or ?1:L = cons(head(?1:L), tail(?1:L))
3 equal 2 2 lr 1 2.1: goal not a = nil and ?1:L = app(cons(head(a), tail(a)), b) | ?1:L
4 def app 2: assertion app(cons(?1, ?2:L), ?3:L) = cons(?1, app(?2:L, ?3:L))
5 equal 4 - lr 3 2.2: goal not a = nil and ?1:L = cons(head(a), app(tail(a), b)) | ?1:L
6 induct: assertion shorter(?1:L, ?2:L, a, b) -> join(?1:L, ?2:L) = app(?1:L, ?2:L)
7 equal 6 2 rl 5 2.2.2: goal shorter(tail(a), b, a, b) and not a = nil and ?1:L = cons(head(a), join(tail(a), b)) | ?1:L
8 reflex 7 3: goal shorter(tail(a), b, a, b) and not a = nil | cons(head(a), join(tail(a), b))
9 axiom taildown: assertion ?1:L = nil or shorter(tail(?1:L), ?2:L, ?1:L, ?3:L)
10 resolve 8 1 9 2: goal not a = nil | cons(head(a), join(tail(a), b))
11 equal 10 1 lr 1 2.1: goal ?1:L = app(nil, b) | if a = nil then ?1:L else cons(head(a), join(tail(a), b))
12 def app 1: assertion app(nil, ?1:L) = ?1:L
13 equal 12 - lr 11 2: goal ?1:L = b | if a = nil then ?1:L else cons(head(a), join(tail(a), b))
14 reflex 13 -: goal true | if a = nil then b else cons(head(a), join(tail(a), b))
15 equal 4 - lr 4 2.2: assertion app(cons(?1, cons(?2, ?3:L)), ?4:L) = cons(?1, cons(?2, app(?3:L, ?4:L)))";

#[test]
fn gives_worked_rows(rt: HostRuntime) -> Result<(), Fail> {
    gives_rows(&rt, rt.alloc(), "max2", MAX2)?;
    gives_rows(&rt, rt.alloc(), "twice", TWICE)?;
    gives_rows(&rt, rt.alloc(), "over", OVER)?;
    gives_rows(&rt, rt.alloc(), "join", JOIN)
}

/// Steps that give nothing over the rows of `TWICE`.
const NOTHING: &str = "\
equal 2 2 rl 1 2.1
equal 2 2 lr 1 2.1.1
equal 2 1 lr 16 2
equal 0 - lr 1 2
equal 4 - lr 1 2
equal 1 2 lr 3 2
resolve 8 1 9 3
resolve 8 1,1 9 2
resolve 8 1 16 2
resolve 20 1 9 2
reflex 5 1
reflex 16 -
reflex 0 -
split 3 1
split 2 1
split 6 3
split 30 1
dual 16
dual 0
def dbl 3
def dbl 0
def below 1
def none 1
axiom cases
induct";

#[test]
fn gives_nothing(rt: HostRuntime) -> Result<(), Fail> {
    for rule in NOTHING.lines() {
        let got = given_text(rt.alloc(), "twice", TWICE, rule)?;
        assert_eq!(rt; got.as_str(), "none", "at {rule}");
    }
    Ok(())
}
