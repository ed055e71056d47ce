// What texts of theories and specifications are, and what a derivation over them begins with.
ghost use Rattle.std.specs.Prelude.{IfOk, IfSome};
ghost use Rattle.syn_model.specs.Specifications.{IsSpec};
ghost use Rattle.syn_row.specs.Guards.{RuleBelongs};

use std::alloc::Global;
use std::test::Fail;
use syn_files::{read_spec, read_theory};
use syn_model::{Spec, Theory};
use syn_start::Start;
use syn_term::Bank;

/// The theory of the text.
pub fn theory_of(alloc: Global, text: &str) -> Result<Theory, Fail> {
    match read_theory(alloc, &mut Bank::new(alloc), text.as_bytes()) {
        Ok(theory) => Ok(theory),
        Err(_) => Err(Fail::new("no theory")),
    }
}

/// The specification of the text, over the theory.
pub fn spec_over(alloc: Global, theory: &Theory, text: &str) -> Result<Spec, Fail>
    ensures { IfOk result (IsSpec (theory.now).decls) }
{
    match read_spec(alloc, &mut Bank::new(alloc), theory, text.as_bytes()) {
        Ok(spec) => Ok(spec),
        Err(_) => Err(Fail::new("no specification")),
    }
}

/// What a derivation over the two begins with.
fn start_over(alloc: Global, bank: &mut Bank, theory: &Theory, spec: &Spec) -> Result<Start, Fail>
    requires { IsSpec (theory.now).decls spec.now }
    ensures { IfOk result (λ s. IfSome s.rule (RuleBelongs bank.new)) }
{
    if !theory.is_whole() {
        return Err(Fail::new("a clause is missing"));
    }
    if !spec.is_whole() {
        return Err(Fail::new("no output condition"));
    }
    Ok(Start::new(alloc, bank, theory, spec)?)
}

/// What a derivation over the theory and the specification of the text begins with.
pub fn start_of(alloc: Global, bank: &mut Bank, theory: &Theory, text: &str) -> Result<Start, Fail>
    ensures { IfOk result (λ s. IfSome s.rule (RuleBelongs bank.new)) }
{
    let spec = spec_over(alloc, theory, text)?;
    start_over(alloc, bank, theory, &spec)
}
