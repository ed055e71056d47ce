// Names that are found by hash.
ghost use Rattle.std.specs.Prelude.{◌≡◌, ◌↔◌, ◌<◌, ◌++◌, ◌∷◌, [], Contains, IfOk, IsTrue, OnErr, OnOk, string_bytes};
ghost use Rattle.std.specs.String.{string_eq};
ghost use Rattle.indexmap.specs.IndexSet.{insert_key, spare};
ghost use Rattle.syn_model.specs.Heads.{AreDistinct};
ghost use Rattle.syn_model.specs.inner.Hashing.{texts};

use indexmap::IndexSet;
use std::alloc::Global;
use syn_term::{NoMemory, Text};

/// Whether the name is one of these.
pub(crate) fn has_name(names: &IndexSet<String>, name: &str) -> bool
    ensures { IsTrue result ↔ Contains (texts names.now) name.now }
{
    names.contains(name)
}

/// The name as the key that it will stand under; there is room for it then.
fn ready(names: &mut IndexSet<String>, name: &str) -> Result<String, NoMemory>
    ensures keys { names.new.keys ≡ names.old.keys }
    ensures room { OnOk result (0 < spare names.new) }
    ensures own { IfOk result (λ key. string_bytes key ≡ name.now) }
{
    names.reserve(1)?;
    Ok(String::from_str(*names.allocator(), name)?)
}

/// Puts the key behind the others, where there is room: this takes no memory.
fn put(names: &mut IndexSet<String>, key: String)
    requires { 0 < spare names.old }
    ensures { names.new.keys ≡ insert_key string_eq names.old.keys key }
{
    let _ = names.insert(key);
}

/// Puts a new name behind these.
pub(crate) fn put_name(names: &mut IndexSet<String>, name: &str) -> Result<(), NoMemory>
    requires { Contains (texts names.old) name.now → ⊥ }
    ensures ok { OnOk result (texts names.new ≡ texts names.old ++ name.now ∷ []) }
    ensures err { OnErr result (texts names.new ≡ texts names.old) }
{
    let key = ready(&mut *names, name)?;
    put(names, key);
    Ok(())
}

fn put_new(seen: &mut IndexSet<String>, names: &[Text]) -> Result<bool, NoMemory>
    requires { texts seen.old ≡ [] }
    ensures { IfOk result (λ b. IsTrue b ↔ AreDistinct names.now) }
{
    for name in names {
        if has_name(&*seen, name.as_str()) {
            return Ok(false);
        }
        put_name(&mut *seen, name.as_str())?;
    }
    Ok(true)
}

/// Whether no two of the names are one. The one error is want of memory.
pub(crate) fn are_distinct(alloc: Global, names: &[Text]) -> Result<bool, NoMemory>
    ensures { IfOk result (λ b. IsTrue b ↔ AreDistinct names.now) }
{
    let mut seen = IndexSet::new(alloc);
    let answer = put_new(&mut seen, names);
    drop(seen);
    answer
}
