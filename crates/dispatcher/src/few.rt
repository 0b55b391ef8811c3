//! Values of which there is one, mostly.
ghost use Rattle.std.specs.Prelude.{◌≡◌, ◌++◌, ◌∷◌, [], IfOk, OnOk};
ghost use Rattle.std.specs.Mem.{FitsInMemory};
ghost use Rattle.dispatcher.specs.Few.{values_in};

use std::alloc::{AllocError, Global};
use std::mem::replace;
use std::slice;

/// A list begins with room for so many values.
const FIRST_VALUES: usize = 4;

/// Values in order. One of them takes no list.
#[derive(Drop)]
pub enum Few<T> {
    Nothing,
    One(T),
    Many(Vec<T>),
}

impl<T: Drop> Few<T> {
    /// The values, in order.
    #[inline(always)]
    pub fn as_slice(&self) -> &[T]
        requires { FitsInMemory T.row }
        ensures { result.now ≡ values_in self.now }
    {
        match self {
            Few::Nothing => &[],
            Few::One(value) => slice::from_ref(value),
            Few::Many(values) => values.as_slice(),
        }
    }

    /// Adds a value. After an `Err` the values are to be dropped.
    #[inline(always)]
    pub fn push(&mut self, alloc: Global, value: T) -> Result<(), AllocError>
        ensures { OnOk result (values_in self.new ≡ values_in self.old ++ value ∷ []) }
    {
        *self = match replace(self, Few::Nothing) {
            Few::Nothing => Few::One(value),
            Few::One(first) => Few::Many(two(alloc, first, value)?),
            Few::Many(values) => Few::Many(one_more(values, value)?),
        };
        Ok(())
    }
}

fn two<T: Drop>(alloc: Global, first: T, second: T) -> Result<Vec<T>, AllocError>
    ensures { IfOk result (λ values. values.items ≡ first ∷ second ∷ []) }
{
    let mut values = Vec::with_capacity(alloc, FIRST_VALUES)?;
    values.push_reserved(first);
    values.push_reserved(second);
    Ok(values)
}

fn one_more<T: Drop>(values: Vec<T>, value: T) -> Result<Vec<T>, AllocError>
    ensures { IfOk result (λ more. more.items ≡ values.items ++ value ∷ []) }
{
    let mut values = values;
    values.push(value)?;
    Ok(values)
}
