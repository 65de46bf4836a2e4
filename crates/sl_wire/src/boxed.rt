// Trusted types: for nodes Boxed.
// Values behind pointers.
ghost use Rattle.std.specs.Prelude.{◌≡◌, IfOk};

use std::alloc::{AllocError, Global};
use std::marker::Model;

/// A value behind a pointer, so that what holds it is small. Contracts see the value.
#[derive(Debug, Drop)]
pub struct Boxed<T> {
    pub(crate) inner: Box<T>,
}

impl<T> Model for Boxed<T> {
    ghost Value = { T };

    ghost view = { λ b. b.inner.value };
}

impl<T: Drop> Boxed<T> {
    /// Puts a value behind a pointer.
    pub fn new(alloc: Global, value: T) -> Result<Boxed<T>, AllocError>
        ensures { IfOk result (λ b. b ≡ value) }
    {
        let inner = Box::new(alloc, value)?;
        Ok(Boxed { inner })
    }

    /// The value.
    pub fn get(&self) -> &T
        ensures { result.now ≡ self.now }
    {
        &self.inner
    }

    /// Puts another value in its place.
    pub fn set(&mut self, value: T)
        ensures { self.new ≡ value }
    {
        *self.inner = value;
    }
}
