// What is still to do, and what the machine works on.
ghost use Rattle.std.specs.Prelude.{◌≡◌, ◌≤◌, [], ◌∷◌, ◌++◌, MatchOption, length};
ghost use Rattle.syn_machine.specs.inner.Frames.{end_of, inputs_of, variables_of};

use crate::lists::part;
use crate::stack::Stack;
use sqlite_items::Items;
use syn_form::{Form, Out};
use syn_term::{SymId, Term};
use syn_value::Value;

/// Where on the list of values the inputs stand that a program's body reads, or the variables of a
/// clause. The last place is not one of them.
#[derive(Clone, Copy)]
pub enum Scope {
    Inputs { from: usize, to: usize },
    Variables { from: usize, to: usize },
}

impl Scope {
    /// How many values must be there.
    pub(crate) fn end(self) -> usize
        ensures { result ≡ end_of self }
    {
        match self {
            Scope::Inputs { to, .. } | Scope::Variables { to, .. } => to,
        }
    }

    /// The values of the inputs.
    pub(crate) fn inputs(self, values: &[Value]) -> &[Value]
        requires { end_of self ≤ length values.now }
        ensures { result.now ≡ inputs_of self values.now }
    {
        match self {
            Scope::Inputs { from, to } => part(values, from, to),
            Scope::Variables { .. } => &[],
        }
    }

    /// The values of the variables.
    pub(crate) fn variables(self, values: &[Value]) -> &[Value]
        requires { end_of self ≤ length values.now }
        ensures { result.now ≡ variables_of self values.now }
    {
        match self {
            Scope::Inputs { .. } => &[],
            Scope::Variables { from, to } => part(values, from, to),
        }
    }
}

/// How truth values are joined, one after another.
#[derive(Clone, Copy)]
pub enum Connective {
    And,
    Or,
    Implies,
}

/// One thing that is still to do. Results are put on the lists of values and of truth values.
#[derive(Clone, Copy)]
pub enum Frame<'a> {
    /// The value of the term.
    Term {
        scope: Scope,
        term: &'a Term,
    },
    /// The values of the rest of a symbol's arguments, and then the symbol on all, which are so many.
    Apply {
        scope: Scope,
        symbol: SymId,
        count: usize,
        rest: &'a [Term],
    },
    /// The truth value of the formula.
    Form {
        scope: Scope,
        form: &'a Form,
    },
    /// The same as `Apply` of a relation or an order.
    Ask {
        scope: Scope,
        symbol: SymId,
        count: usize,
        rest: &'a [Term],
    },
    /// Whether the last two values are the same.
    Same,
    /// The other truth value.
    Not,
    /// The last truth value joined with those of the formulas.
    Chain {
        scope: Scope,
        connective: Connective,
        rest: &'a [Form],
    },
    /// The last two truth values joined.
    Join {
        connective: Connective,
    },
    /// The value of the output.
    Out {
        scope: Scope,
        out: &'a Out,
    },
    /// The value of the first output where the last truth value is true, else of the second.
    Choose {
        scope: Scope,
        first: &'a Out,
        second: &'a Out,
    },
    /// Lets go of the values from the place on, but for the last, which stays.
    Return {
        base: usize,
    },
    /// Lets go of the values from the place on.
    Forget {
        base: usize,
    },
    /// Whether the last value but one is a smaller number than the last; lets go of the values from the
    /// place on.
    Below {
        base: usize,
    },
}

/// What is still to do, the values, and the truth values.
#[derive(Drop)]
pub struct Work<'a> {
    pub(crate) frames: Stack<Frame<'a>>,
    pub(crate) values: Items<Value>,
    pub(crate) truths: Stack<bool>,
}

impl Work<'_> {
    /// The last value; all else is let go of.
    pub(crate) fn last_value(mut self) -> Option<Value>
        ensures { MatchOption result (self.entry.values ≡ []) (λ v. (vs : _) × (self.entry.values ≡ vs ++ v ∷ [])) }
    {
        self.values.pop()
    }

    /// The last truth value; all else is let go of.
    pub(crate) fn last_truth(mut self) -> Option<bool>
        ensures { MatchOption result (self.entry.truths ≡ []) (λ b. (bs : _) × (self.entry.truths ≡ b ∷ bs)) }
    {
        self.truths.pop()
    }
}
