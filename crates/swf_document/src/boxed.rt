// A value behind a box.
ghost use Rattle.std.specs.Prelude.{◌≡◌, IfOk, option_map};

use std::alloc::{AllocError, Global};
use std::marker::Model;
use std::mem;

/// A value behind a box, for parts that few tasks have, so that the others stay small. Contracts see it as the value.
#[derive(Drop)]
pub struct Boxed<T> {
    inner: Box<T>,
}

impl<T> Model for Boxed<T> {
    ghost Value = { T };

    ghost coded = { T.code };

    ghost view = { λ b. b.inner.value };
}

impl<T> Boxed<T> {
    pub fn new(alloc: Global, value: T) -> Result<Boxed<T>, AllocError>
    where
        T: Drop,
        ensures { IfOk result (λ boxed. boxed ≡ value) }
    {
        let inner = Box::new(alloc, value)?;
        Ok(Boxed { inner })
    }

    /// The value.
    pub fn get(&self) -> &T
        ensures { result.now ≡ self.now }
    {
        &self.inner
    }

    /// Puts another value into the box, and answers the one that was there. It takes no memory.
    pub fn replace(&mut self, value: T) -> T
        ensures new { self.new ≡ value }
        ensures former { result ≡ self.old }
    {
        mem::replace(&mut *self.inner, value)
    }

    /// The value. It takes no memory.
    pub fn into_inner(self) -> T
        ensures { result ≡ self }
    {
        Box::into_inner(self.inner)
    }
}

/// The value in a box, where there is one.
pub fn unboxed<T>(given: &Option<Boxed<T>>) -> Option<&T>
    ensures { option_map (λ e. e.now) result ≡ given.now }
{
    match given {
        Some(boxed) => Some(boxed.get()),
        None => None,
    }
}
