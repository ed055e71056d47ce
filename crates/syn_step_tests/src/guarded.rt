// The guards of steps, where an order is named, and that there are none without. A line `axiom x` hands in a row.
use crate::given::gives_rows;
use std::test::Fail;

/// With an input condition: of calls in the first output, in the second, in the test; of one parent alone; in assertions; by
/// resolution, reflexivity and equality replacement.
const BOUND: &str = "\
1 axiom x: goal ?1 = s(twice(twice(0))) | ?1
2 reflex 1 -: goal below(twice(0), a) and le(0, twice(0)) and below(0, a) and le(0, 0) | s(twice(twice(0)))
3 axiom x: goal le(?1, twice(1)) | ?1
4 axiom x: goal not le(twice(0), ?1) | ?1
5 resolve 3 - 4 1: goal below(0, a) and le(0, 0) and below(1, a) and le(0, 1) | if le(twice(0), twice(1)) then twice(0) else twice(1)
6 axiom x: goal le(twice(0), a) | 0
7 axiom x: goal not le(twice(0), a) | a
8 resolve 6 - 7 1: goal below(0, a) and le(0, 0) | if le(twice(0), a) then 0 else a
9 axiom x: assertion le(twice(0), a)
10 resolve 6 - 9 -: goal true | 0
11 axiom x: assertion le(a, ?1) and ?1 = twice(0) | ?1
12 reflex 11 2: assertion le(a, twice(0)) or not (below(0, a) and le(0, 0)) | twice(0)
13 axiom x: assertion le(?1, a) and le(?1, 0) | ?1
14 axiom x: assertion le(twice(0), a) or le(a, 0)
15 resolve 13 1 14 1: assertion le(twice(0), 0) or le(a, 0) or not (below(0, a) and le(0, 0)) | twice(0)
16 axiom x: assertion not le(twice(0), a)
17 axiom x: goal not le(?1, a) | ?1
18 resolve 16 1 17 1: goal below(0, a) and le(0, 0) | twice(0)
19 axiom x: assertion twice(0) = a
20 axiom x: goal le(?1, 0) | ?1
21 equal 19 - lr 20 1: goal le(a, 0) and below(0, a) and le(0, 0) | twice(0)
22 axiom x: goal not twice(0) = a | a
23 axiom x: goal le(twice(0), 0) | 0
24 equal 22 1 lr 23 1: goal le(a, 0) and below(0, a) and le(0, 0) | if twice(0) = a then 0 else a
25 dual 2: assertion not (below(twice(0), a) and le(0, twice(0)) and below(0, a) and le(0, 0)) | s(twice(twice(0)))";

/// Without an input condition.
const UNBOUND: &str = "\
1 axiom x: goal ?1 = s(twice(twice(0))) | ?1
2 reflex 1 -: goal below(twice(0), a) and below(0, a) | s(twice(twice(0)))
3 axiom x: goal le(?1, twice(0)) | ?1
4 axiom x: goal not le(twice(p(a)), ?1) | ?1
5 resolve 3 - 4 1: goal below(p(a), a) and below(0, a) | if le(twice(p(a)), twice(0)) then twice(p(a)) else twice(0)
6 axiom x: goal not ?1 = 0 | ?1
7 axiom x: goal le(twice(p(a)), ?1) | s(?1)
8 equal 6 1 lr 7 1: goal le(0, ?1) and below(p(a), a) | if twice(p(a)) = 0 then s(?1) else twice(p(a))
9 axiom x: assertion not le(twice(p(a)), 0) | 0
10 axiom x: assertion le(?1, 0) or a = 0 | ?1
11 resolve 9 1 10 1: assertion a = 0 or not below(p(a), a) | if le(twice(p(a)), 0) then 0 else twice(p(a))
12 axiom x: assertion not ?1 = twice(p(a)) | ?1
13 reflex 12 1: assertion not below(p(a), a) | twice(p(a))";

/// Without an order.
const PLAIN: &str = "\
1 axiom x: goal ?1 = s(same(0)) | ?1
2 reflex 1 -: goal true | s(same(0))";

/// A program that would call itself on whatever it likes has a guard that is never met.
const LOOPING: &str = "\
1 goal: goal r(?1) | ?1
2 induct: assertion below(?1, a) -> r(f(?1))
3 axiom loose: assertion below(?1, ?2) or r(?3)
4 resolve 2 1 3 1: assertion r(f(?1)) or r(?2)
5 resolve 1 - 4 1,2: goal below(?1, a) | f(?1)";

#[test]
fn guards_calls(rt: HostRuntime) -> Result<(), Fail> {
    gives_rows(&rt, rt.alloc(), "bound", BOUND)?;
    gives_rows(&rt, rt.alloc(), "twice", UNBOUND)?;
    gives_rows(&rt, rt.alloc(), "same", PLAIN)?;
    gives_rows(&rt, rt.alloc(), "looping", LOOPING)
}
