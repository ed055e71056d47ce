// A counted pointer whose last owner can take the value out, as `Shared` of `syn_term` doesn't let: so a
// long list is let go of in a loop. Contracts see it as the value behind it.
ghost use Rattle.std.specs.Prelude.{◌≡◌, IfOk, IfSome};

use std::alloc::{AllocError, Global};
use std::marker::Model;
use std::rc::Rc;

/// A value with several owners, none of which changes it.
#[derive(Drop)]
pub(crate) struct Link<T> {
    inner: Rc<T>,
}

impl<T> Model for Link<T> {
    ghost Value = { T };

    ghost coded = { T.code };

    ghost view = { λ b. b.inner.value };
}

impl<T> Link<T> {
    /// The value behind the pointer.
    pub(crate) fn get(&self) -> &T
        ensures { result.now ≡ self.now }
    {
        self.inner.as_ref()
    }

    /// The value, where this was its last owner.
    pub(crate) fn into_inner(self) -> Option<T>
        ensures { IfSome result (λ x. x ≡ self) }
    {
        let Link { inner } = self;
        Rc::into_inner(inner)
    }
}

impl<T: Drop> Link<T> {
    /// Moves a value behind a new pointer.
    pub(crate) fn new(alloc: Global, value: T) -> Result<Link<T>, AllocError>
        ensures { IfOk result (λ b. b ≡ value) }
    {
        Ok(Link {
            inner: Rc::new(alloc, value)?,
        })
    }

    /// One more owner of the same value. It takes no memory; the one error is that the count of
    /// owners is at its end.
    pub(crate) fn again(&self) -> Result<Link<T>, AllocError>
        ensures { IfOk result (λ b. b ≡ self.now) }
    {
        Ok(Link {
            inner: self.inner.clone()?,
        })
    }
}
