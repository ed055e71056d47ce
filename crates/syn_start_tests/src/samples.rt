// A theory, and specifications over it.
ghost use Rattle.std.specs.Prelude.{IfOk};
ghost use Rattle.syn_model.specs.Specifications.{IsSpec};

use std::alloc::Global;
use std::test::Fail;
use syn_model::{Spec, Theory};
use syn_start::Start;
use syn_term::Bank;

const THEORY: &str = "\
theory sample
fun p(nat): nat
clause p(0) = 0
clause p(s(x)) = x
fun dbl(nat): nat
clause dbl(0) = 0
clause dbl(s(x)) = s(s(dbl(x)))
rel le(nat, nat)
clause le(x, 0) <-> x = 0
clause le(x, s(y)) <-> x = s(y) or le(x, y)
rel lt(nat, nat)
clause lt(x, y) <-> le(s(x), y)
order below(x: nat) by x
fun least(nat, nat): nat
clause least(x, y) = if le(x, y) then x else y
";

const MAX2: &str = "\
spec max2
program max2(a: nat, b: nat): z: nat
ensures le(a, z) and le(b, z) and (z = a or z = b)
primitive le
";

const TWICE: &str = "\
spec twice
program twice(a: nat): z: nat
requires le(0, a)
ensures z = dbl(a)
order below
primitive p
";

const ABOVE: &str = "\
spec above
program above(a: nat): z: nat
ensures some x: nat. le(x, z)
";

fn spec_text(name: &str) -> &'static str {
    match name {
        "max2" => MAX2,
        "twice" => TWICE,
        _ => ABOVE,
    }
}

pub fn theory_of(alloc: Global) -> Result<Theory, Fail> {
    syn_start_cases::theory_of(alloc, THEORY)
}

/// The specification of this name, over the theory.
pub fn spec_over(alloc: Global, theory: &Theory, name: &str) -> Result<Spec, Fail>
    ensures { IfOk result (IsSpec (theory.now).decls) }
{
    syn_start_cases::spec_over(alloc, theory, spec_text(name))
}

/// What a derivation over the theory and the specification of this name begins with.
pub fn start_of(
    alloc: Global,
    bank: &mut Bank,
    theory: &Theory,
    name: &str,
) -> Result<Start, Fail> {
    syn_start_cases::start_of(alloc, bank, theory, spec_text(name))
}
