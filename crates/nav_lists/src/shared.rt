//! `Shared<T>`, a value with several owners.

ghost use Rattle.std.specs.Prelude.{◌≡◌, IfOk, IfErr};

use crate::Duplicate;
use std::alloc::{AllocError, AllocFailed, Global};
use std::cmp::PartialEq;
use std::fmt::{self, Debug, Formatter, Write};
use std::marker::Model;
use std::ops::Deref;
use std::sync::Arc;

/// A value that several owners share, each of which sees the value. It is never changed; the last owner drops it.
#[derive(Drop)]
pub struct Shared<T> {
    inner: Arc<T>,
}

impl<T> Model for Shared<T> {
    ghost use Rattle.std.specs.Arc.{arc_value};

    ghost Value = { T };

    ghost view = { λ a. arc_value a.inner };
}

impl<T> Shared<T> {
    /// A value with one owner so far. Where memory is refused, the value comes back.
    pub fn new(alloc: Global, value: T) -> Result<Self, AllocFailed<T>>
        ensures ok { IfOk result (λ shared. shared ≡ value) }
        ensures returned { IfErr result (λ refused. refused.value ≡ value) }
    {
        let inner = Arc::new(alloc, value)?;
        Ok(Shared { inner })
    }

    /// The value.
    pub fn get(&self) -> &T
        ensures { result.now ≡ self.now }
    {
        &self.inner
    }

    /// A further owner of the same value. It takes no memory; it is refused only where the count of owners has reached its end.
    pub fn share(&self) -> Result<Self, AllocError>
        ensures { IfOk result (λ copy. copy ≡ self.now) }
    {
        let inner = Arc::try_clone(&self.inner)?;
        Ok(Shared { inner })
    }
}

impl<T> Deref for Shared<T> {
    type Target = T;

    ghost deref_gives = { λ c x. x ≡ c };

    fn deref(&self) -> &T {
        self.get()
    }
}

impl<T: Drop> Duplicate for Shared<T> {
    fn duplicate(&self, alloc: Global) -> Result<Self, AllocError> {
        let _ = alloc;
        self.share()
    }
}

impl<T: PartialEq> PartialEq for Shared<T> {
    ghost eq = { T.eq };

    ghost laws = { T.laws };

    fn eq(&self, other: &Self) -> bool {
        *self.get() == *other.get()
    }
}

impl<T: Eq> Eq for Shared<T> {
    ghost laws = { T.Eq.laws };
}

impl<T: Debug> Debug for Shared<T> {
    ghost debug_output = { T.debug_output };

    fn fmt<W: Write>(&self, f: &mut Formatter<W>) -> fmt::Result {
        Debug::fmt(self.get(), f)
    }
}
