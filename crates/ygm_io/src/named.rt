//! Values under names.
ghost use Rattle.std.specs.Prelude.{◌≡◌, ◌++◌, [], ◌∷◌, List, ℕ, OnOk, OnErr, bytes_eq, string_bytes};
ghost use Rattle.std.specs.Option.{option_copied};
ghost use Rattle.ygm_io.specs.ByName.{last_named};

use std::alloc::{AllocError, Global};
use std::marker::Model;

/// A value and its name.
#[derive(Debug, Drop)]
pub struct Named<T> {
    name: String,
    value: T,
}

impl<T> Model for Named<T> {
    ghost Value = { List ℕ × T };

    ghost view = { λ named. (string_bytes named.name, named.value) };
}

impl<T> Named<T> {
    fn is_named(&self, name: &str) -> bool
        ensures { result ≡ bytes_eq self.now.0 name.now }
    {
        self.name.as_str() == name
    }

    fn value(&self) -> &T
        ensures { result.now ≡ self.now.1 }
    {
        &self.value
    }
}

/// Adds a value under a name. Of two under equal names `find_named` finds the one that was added later.
pub fn add_named<T: Drop>(
    alloc: Global,
    added: &mut Vec<Named<T>>,
    name: &str,
    value: T,
) -> Result<(), AllocError>
    ensures added { OnOk result (added.new.items ≡ added.old.items ++ (name.now, value) ∷ []) }
    ensures unchanged { OnErr result (added.new.items ≡ added.old.items) }
{
    let name = String::from_str(alloc, name)?;
    added.push(Named { name, value })?;
    Ok(())
}

/// The value that was added last under a name.
pub fn find_named<'a, T>(added: &'a [Named<T>], name: &str) -> Option<&'a T>
    ensures { option_copied result ≡ last_named name.now added.now }
{
    added
        .iter()
        .rev()
        .find(|named| named.is_named(name))
        .map(|named| named.value())
}
