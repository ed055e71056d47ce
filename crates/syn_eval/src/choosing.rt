// The first clause that fits values.
ghost use Rattle.std.specs.Prelude.{◌≡◌, IfOk, map};
ghost use Rattle.std.specs.Option.{option_map};
ghost use Rattle.syn_model.specs.Calls.{chosen};
ghost use Rattle.syn_eval.specs.inner.Rules.{choice_seen, rule_seen};

use crate::fitting::fit;
use crate::rules::Rule;
use sqlite_items::Items;
use std::alloc::Global;
use syn_term::{NoMemory, Symbols};
use syn_value::Value;

/// A clause's body, with the values of its variables.
#[derive(Drop)]
pub struct Chosen<'a, B> {
    pub body: &'a B,
    pub values: Items<Value>,
}

/// The first clause whose arguments fit the values.
pub fn choose<'a, B>(
    alloc: Global,
    symbols: &Symbols,
    rules: &[Rule<'a, B>],
    values: &[Value],
) -> Result<Option<Chosen<'a, B>>, NoMemory>
    ensures { IfOk result (λ o. option_map choice_seen o ≡ chosen symbols.now (map rule_seen rules.now) values.now) }
{
    match rules {
        [] => Ok(None),
        [rule, more @ ..] => {
            let mut found = Items::new(alloc);
            match fit(symbols, rule.args, values, &mut found) {
                Ok(true) => Ok(Some(Chosen {
                    body: rule.body,
                    values: found,
                })),
                Ok(false) => {
                    drop(found);
                    choose(alloc, symbols, more, values)
                }
                Err(error) => {
                    drop(found);
                    Err(error)
                }
            }
        }
    }
}
