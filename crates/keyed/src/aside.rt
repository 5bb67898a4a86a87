//! A value that is set aside: threads may share the place where it lies, and it is taken out once, at the end.
ghost use Rattle.std.specs.Prelude.{◌≡◌};

use crate::rule::Fits;
use atomic_table::{Table, TableRule};
use std::alloc::{AllocError, Global};
use std::marker::PhantomData;

/// The rule: the value lies there, and fits.
pub struct Lies<P> {
    of: PhantomData<P>,
}

impl<T, K, P: Fits<T, K>> TableRule<T, (), K> for Lies<P> {
    ghost use Rattle.keyed.specs.Lying.{IsThere};

    ghost holds = { λ key. IsThere P.fits key };

    ghost first = { λ _. tt };
}

/// A value that is set aside.
pub struct Aside<T, K, P: Fits<T, K>> {
    table: Table<T, (), K, Lies<P>, Global>,
    ghost one: { table.shared.table_id.slots ≡ 1 },
}

impl<T: Drop, K, P: Fits<T, K>> Drop for Aside<T, K, P> {
    fn drop(self) {
        let Aside { table } = self;
        drop(table);
    }
}

impl<T: Drop, K, P: Fits<T, K>> Aside<T, K, P> {
    ghost use Rattle.std.specs.Prelude.{◌≡◌, IfOk};
    ghost use Rattle.keyed.specs.Asides.{key_aside};

    /// Sets a value aside.
    ///
    /// # Errors
    ///
    /// Want of memory.
    pub fn new(alloc: Global, value: T, key: &K) -> Result<Aside<T, K, P>, AllocError>
        requires { P.fits key.now 0 value }
        ensures { IfOk result (λ aside. key_aside aside ≡ key.now) }
    {
        let mut values = Vec::with_capacity(alloc, 1)?;
        values.push_reserved(value);
        match Table::new(alloc, &[], values, key) {
            Ok((table, _seat)) => Ok(Aside { table }),
            Err(_) => Err(AllocError),
        }
    }

    /// Takes it out.
    pub fn take_out(self) -> T
        ensures { P.fits (key_aside self) 0 result }
    {
        let Aside { table } = self;
        let mut closed = table.close();
        let value = closed.take(0);
        closed.free();
        value
    }
}
