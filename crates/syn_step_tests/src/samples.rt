// Theories, and specifications over them.
ghost use Rattle.std.specs.Prelude.{IfOk, IfSome};
ghost use Rattle.syn_row.specs.Guards.{RuleBelongs};

use std::alloc::Global;
use std::test::Fail;
use syn_start::Start;
use syn_term::Bank;

const BASICS: &str = "\
theory basics
fun p(nat): nat
clause p(0) = 0
clause p(s(x)) = x
fun dbl(nat): nat
clause dbl(0) = 0
clause dbl(s(x)) = s(s(dbl(x)))
rel le(nat, nat)
clause le(x, 0) <-> x = 0
clause le(x, s(y)) <-> x = s(y) or le(x, y)
rel r(nat)
clause r(x) <-> true
order below(x: nat) by x
";

const LISTS: &str = "\
theory lists
sort L = nil | cons(nat, L)
fun head(L): nat
clause head(nil) = 0
clause head(cons(x, y)) = x
fun tail(L): L
clause tail(nil) = nil
clause tail(cons(x, y)) = y
fun app(L, L): L
clause app(nil, w) = w
clause app(cons(x, y), w) = cons(x, app(y, w))
fun len(L): nat
clause len(nil) = 0
clause len(cons(x, y)) = s(len(y))
order shorter(x: L, w: L) by len(x)
";

const SAME: &str = "\
spec same
program same(a: nat): z: nat
ensures z = a
";

const TWO: &str = "\
spec two
program two(a: nat, b: nat): z: nat
requires le(a, b)
ensures z = dbl(0)
";

const MAX2: &str = "\
spec max2
program max2(a: nat, b: nat): z: nat
ensures le(a, z) and le(b, z) and (z = a or z = b)
primitive le
";

const TWICE: &str = "\
spec twice
program twice(a: nat): z: nat
ensures z = dbl(a)
order below
primitive p
";

const BOUND: &str = "\
spec bound
program twice(a: nat): z: nat
requires le(0, a)
ensures z = dbl(a)
order below
primitive p
";

const OVER: &str = "\
spec over
program over(a: nat, b: nat): z: nat
requires le(a, b)
ensures le(a, z) and z = s(b)
";

const LOOPING: &str = "\
spec looping
program f(a: nat): z: nat
ensures r(z)
order below
primitive r
";

const JOIN: &str = "\
spec join
program join(a: L, b: L): z: L
ensures z = app(a, b)
order shorter
primitive head, tail
";

const ANY: &str = "\
spec any
program any(a: nat): z: nat
requires false
ensures z = s(z)
";

const FREE: &str = "\
spec free
program free(a: nat): z: nat
ensures z = z
";

fn spec_text(name: &str) -> &'static str {
    match name {
        "same" => SAME,
        "two" => TWO,
        "max2" => MAX2,
        "twice" => TWICE,
        "bound" => BOUND,
        "over" => OVER,
        "looping" => LOOPING,
        "any" => ANY,
        "free" => FREE,
        _ => JOIN,
    }
}

/// What a derivation begins with, for a specification over a theory, both as texts.
pub fn start_from(alloc: Global, bank: &mut Bank, theory: &str, spec: &str) -> Result<Start, Fail>
    ensures { IfOk result (λ s. IfSome s.rule (RuleBelongs bank.new)) }
{
    let theory = syn_start_cases::theory_of(alloc, theory)?;
    syn_start_cases::start_of(alloc, bank, &theory, spec)
}

/// The same for the specification of this name.
pub fn start_of(alloc: Global, bank: &mut Bank, name: &str) -> Result<Start, Fail>
    ensures { IfOk result (λ s. IfSome s.rule (RuleBelongs bank.new)) }
{
    let theory = if name == "join" { LISTS } else { BASICS };
    start_from(alloc, bank, theory, spec_text(name))
}
