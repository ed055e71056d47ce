// Names with their sorts at the front of words: the parameters of an order, the inputs of a program.
ghost use Rattle.std.specs.Prelude.{◌≡◌, ◌++◌, ◌∷◌, [], IfOk, MatchOption, None, OnOk, Some, map};
ghost use Rattle.syn_expr.specs.Scopes.{listed};
ghost use Rattle.syn_model.specs.Heads.{given_param, given_sort};
ghost use Rattle.syn_files.specs.inner.Firsts.{got};
ghost use Rattle.syn_files.specs.inner.Params as reading;
ghost use Rattle.syn_files.specs.inner.Params.{a_name, param};

use crate::cursor::Cursor;
use crate::naming::push_named;
use sqlite_items::Items;
use std::alloc::Global;
use syn_term::{NoMemory, Sort, Symbols, Var};

fn push_param(
    alloc: Global,
    params: &mut Items<(String, Sort)>,
    name: &str,
    sort: Sort,
) -> Result<(), NoMemory>
    ensures { OnOk result (map given_param params.new ≡ map given_param params.old ++ param name.now sort ∷ []) }
{
    params.push((String::from_str(alloc, name)?, sort))?;
    Ok(())
}

/// Puts the name of a parameter behind the others, as the variable with this number.
fn push_numbered(
    alloc: Global,
    names: &mut Vec<(String, Var)>,
    number: u32,
    param: &(String, Sort),
) -> Result<(), NoMemory>
    ensures { OnOk result (listed names.new.items ≡ listed names.old.items ++ reading.numbered_name number (given_param param.now) ∷ []) }
{
    let name = String::from_str(alloc, param.0.as_str())?;
    let var = Var {
        number,
        sort: param.1,
    };
    push_named(names, name, var)
}

/// The parameters as names of variables, numbered from 1. That the numbers run out can't be reached: an
/// order has four parameters at most.
pub(crate) fn numbered_names(
    alloc: Global,
    params: &[(String, Sort)],
) -> Result<Vec<(String, Var)>, NoMemory>
    ensures { IfOk result (λ names. listed names.items ≡ reading.numbered_names 1 (map given_param params.now)) }
{
    let mut names = Vec::new(alloc);
    let mut number = 1u32;
    for i in 0..params.len() {
        push_numbered(alloc, &mut names, number, &params[i])?;
        match number.checked_add(1) {
            None => return Err(NoMemory),
            Some(next) => number = next,
        }
    }
    Ok(names)
}

/// The sorts of the parameters.
pub(crate) fn param_sorts(alloc: Global, params: &[(String, Sort)]) -> Result<Items<Sort>, NoMemory>
    ensures { IfOk result (λ sorts. sorts ≡ map given_sort params.now) }
{
    let mut sorts = Items::new(alloc);
    for param in params {
        sorts.push(param.1)?;
    }
    Ok(sorts)
}

impl<'a> Cursor<'a> {
    /// The name and the sort at the front, with a colon between.
    pub(crate) fn param(&mut self, syms: &Symbols) -> Option<(&'a str, Sort)>
        ensures { MatchOption result (reading.param_first syms.now self.old.left ≡ None) (λ p. reading.param_first syms.now self.old.left ≡ Some (got (param p.0.now p.1) self.new.left)) }
    {
        let Some(name) = self.name() else {
            return None;
        };
        if !self.sign(b":") {
            return None;
        }
        match self.sort(syms) {
            None => None,
            Some(sort) => Some((name, sort)),
        }
    }

    /// The names with their sorts in brackets at the front, with commas between. The one error is want of
    /// memory.
    pub(crate) fn params(
        &mut self,
        alloc: Global,
        syms: &Symbols,
    ) -> Result<Option<Items<(String, Sort)>>, NoMemory>
        ensures { IfOk result (λ o. MatchOption o (reading.params_first syms.now self.old.left ≡ None) (λ ps. reading.params_first syms.now self.old.left ≡ Some (got (map given_param ps) self.new.left))) }
    {
        if self.sign(b"(") {
            self.params_on(alloc, syms)
        } else {
            Ok(None)
        }
    }

    /// The same behind the opening bracket.
    #[tactic(auto, using(crate::proofs::ParamLaws::param_next, crate::proofs::ParamLaws::param_none))]
    fn params_on(
        &mut self,
        alloc: Global,
        syms: &Symbols,
    ) -> Result<Option<Items<(String, Sort)>>, NoMemory>
        ensures { IfOk result (λ o. MatchOption o (reading.params_on syms.now a_name self.old.left ≡ None) (λ ps. reading.params_on syms.now a_name self.old.left ≡ Some (got (map given_param ps) self.new.left))) }
    {
        let mut params = Items::new(alloc);
        while let Some((name, sort)) = self.param(syms) {
            push_param(alloc, &mut params, name, sort)?;
            if self.sign(b")") {
                return Ok(Some(params));
            }
            if !self.sign(b",") {
                return Ok(None);
            }
        }
        Ok(None)
    }
}
