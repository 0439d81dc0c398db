//! A shelf that records under which names its calls failed.
ghost use Rattle.std.specs.Prelude.{◌≡◌, ◌<◌, ◌++◌, ◌∷◌, [], OnOk, IfOk, vec_len, vec_capacity};
ghost use Rattle.std.specs.String.{string_bytes};
ghost use Rattle.thy_fault_tests.specs.Naming.{names_of};

use std::alloc::{AllocError, Global};
use thy_base::{FetchError, PutError, Shelf};
use thy_out::MemShelf;

/// A shelf in memory that also records under which names its calls failed.
#[derive(Drop)]
pub(crate) struct NamingShelf {
    shelf: MemShelf,
    /// The names under which calls failed, in order.
    failed: Vec<String>,
}

/// A copy of a name, and room for it among these.
fn copied(names: &mut Vec<String>, alloc: Global, name: &str) -> Result<String, AllocError>
    ensures names { names.new.items ≡ names.old.items }
    ensures room { OnOk result (vec_len names.new < vec_capacity names.new) }
    ensures copy { IfOk result (λ copy. string_bytes copy ≡ name.now) }
{
    names.reserve(1)?;
    String::from_str(alloc, name)
}

/// Adds a name to these, which have room for it.
fn note(names: &mut Vec<String>, name: String)
    requires room { vec_len names.old < vec_capacity names.old }
    ensures { names_of names.new.items ≡ names_of names.old.items ++ string_bytes name ∷ [] }
{
    let _ = names.push(name);
}

impl NamingShelf {
    /// A shelf over this one, of which no call has failed yet.
    pub(crate) fn new(alloc: Global, shelf: MemShelf) -> NamingShelf {
        NamingShelf {
            shelf,
            failed: Vec::new(alloc),
        }
    }

    /// The names under which calls failed, in order.
    pub(crate) fn failed(&self) -> &[String] {
        self.failed.as_slice()
    }
}

impl Shelf for NamingShelf {
    ghost use Rattle.thy_fault_tests.specs.Naming.{naming};

    ghost stock = { λ s. naming s.shelf s.failed.items };

    fn fetch(&mut self, alloc: Global, name: &str, limit: u64) -> Result<Vec<u8>, FetchError> {
        let copy = match copied(&mut self.failed, alloc, name) {
            Ok(copy) => copy,
            Err(error) => return Err(FetchError::Memory(error)),
        };
        let fetched = self.shelf.fetch(alloc, name, limit);
        if let Err(FetchError::Failed) = fetched {
            note(&mut self.failed, copy);
        }
        fetched
    }

    fn put(&mut self, alloc: Global, name: &str, bytes: &[u8]) -> Result<(), PutError> {
        let copy = match copied(&mut self.failed, alloc, name) {
            Ok(copy) => copy,
            Err(error) => return Err(PutError::Memory(error)),
        };
        let put = self.shelf.put(alloc, name, bytes);
        if let Err(PutError::Failed) = put {
            note(&mut self.failed, copy);
        }
        put
    }
}
