//! A value that stands apart from what holds it, which contracts see as the value.
ghost use Rattle.std.specs.Prelude.{◌≡◌, IfOk};

use std::alloc::{AllocError, Global};
use std::marker::Model;

/// A value in memory of its own, so that what holds it is small and cheap to hand on.
#[derive(Drop)]
pub struct Boxed<T> {
    held: Box<T>,
}

impl<T> Model for Boxed<T> {
    ghost Value = { T };

    ghost view = { λ b. b.held.value };
}

impl<T: Drop> Boxed<T> {
    /// A value, put apart.
    pub fn new(alloc: Global, value: T) -> Result<Boxed<T>, AllocError>
        ensures { IfOk result (λ boxed. boxed ≡ value) }
    {
        Ok(Boxed {
            held: Box::new(alloc, value)?,
        })
    }

    /// The value.
    pub fn get(&self) -> &T
        ensures { result.now ≡ self.now }
    {
        &self.held
    }
}

impl<T: Clone> Boxed<T> {
    /// A clone of it.
    pub fn cloned(&self) -> Result<Boxed<T>, AllocError>
        ensures { IfOk result (λ boxed. T.is_clone self.now boxed) }
    {
        Ok(Boxed {
            held: self.held.clone()?,
        })
    }
}

impl<T: Copy> Boxed<T> {
    /// A copy of it.
    pub fn copied(&self) -> Result<Boxed<T>, AllocError>
        ensures { IfOk result (λ boxed. boxed ≡ self.now) }
    {
        let alloc = *Box::allocator(&self.held);
        Ok(Boxed {
            held: Box::new(alloc, *self.held)?,
        })
    }
}
