// The calls on outputs.
ghost use Rattle.std.specs.Prelude.{◌≡◌, ◌↔◌, ◌+◌, ◌++◌, min, IfOk, IsTrue};
ghost use Rattle.syn_form.specs.Same.{OfOneBank, SameOutMeansEqual};
ghost use Rattle.syn_form.specs.Trees.{bare_out, out_depth, out_nodes, out_terms};

use crate::form::greater;
use crate::trees::Out;
use syn_term::NoMemory;

impl Out {
    /// The same output once more. It takes no memory; the one error, NoMemory, is that a pointer's
    /// count of owners is at its end.
    pub fn again(&self) -> Result<Out, NoMemory>
        ensures { IfOk result (λ o. o ≡ self.now) }
    {
        match self {
            Out::Give(t) => Ok(Out::Give(t.again()?)),
            Out::If(f, u, v) => Ok(Out::If(f.again()?, u.again()?, v.again()?)),
        }
    }

    /// The number of nodes of its terms, tests and choices, or `cap + 1` where there are more than
    /// `cap`. A part that is shared counts as often as it stands in the output.
    pub fn size(&self, cap: u32) -> u64
        ensures { result ≡ min (out_nodes self.now) (cap + 1) }
    {
        match self {
            Out::Give(t) => t.size(cap),
            Out::If(f, u, v) => {
                if cap == 0 {
                    return 1;
                }
                let tested = 1 + f.get().size(cap - 1);
                if tested > u64::from(cap) {
                    return tested;
                }
                let total = tested + u.get().size(cap - tested as u32);
                if total > u64::from(cap) {
                    return total;
                }
                total + v.get().size(cap - total as u32)
            }
        }
    }

    /// The depth, or `cap + 1` where it is more than `cap`.
    pub fn depth(&self, cap: u32) -> u64
        ensures { result ≡ min (out_depth self.now) (cap + 1) }
    {
        match self {
            Out::Give(t) => t.depth(cap),
            Out::If(f, u, v) => {
                if cap == 0 {
                    return 1;
                }
                let arms = greater(u.get().depth(cap - 1), v.get().depth(cap - 1));
                1 + greater(f.get().depth(cap - 1), arms)
            }
        }
    }

    /// Whether the two are one tree. It asks that their terms are of one bank. The law says what the
    /// truth value by which definitions decide means.
    #[tactic(auto, using(crate::proofs::Same::same_out_means_equal))]
    pub fn same(&self, other: &Out) -> bool
        requires { OfOneBank (out_terms self.now ++ out_terms other.now) }
        ensures same { IsTrue result ↔ (bare_out self.now ≡ bare_out other.now) }
        ensures law { SameOutMeansEqual }
    {
        self.is_one(other)
    }

    /// Whether the two are one tree.
    fn is_one(&self, other: &Out) -> bool
        requires { OfOneBank (out_terms self.now ++ out_terms other.now) }
        ensures { IsTrue result ↔ (bare_out self.now ≡ bare_out other.now) }
    {
        match (self, other) {
            (Out::Give(s), Out::Give(t)) => s.same(t),
            (Out::If(f, u, v), Out::If(g, x, y)) => {
                if !f.get().same(g.get()) {
                    return false;
                }
                if !u.get().is_one(x.get()) {
                    return false;
                }
                v.get().is_one(y.get())
            }
            _ => false,
        }
    }
}
