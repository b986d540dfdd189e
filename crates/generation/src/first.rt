ghost use Rattle.std.specs.Prelude.{◌≡◌, [], ◌∷◌, Ok, IfOk, IfErr};
ghost use Rattle.update_spec.specs.Entries as spec;
ghost use Rattle.generation.specs.First.{IsFirstRefusal, IsRefusedSo};

use dnr_base::Text;
use ruleset_store::{Extension, Refusal, Store};
use std::alloc::{AllocError, Global};

/// Why there is no generation to begin with.
#[derive(Debug, Drop)]
pub enum FirstRefusal {
    /// The extension of this name is not installed, for this reason, which is not `NoMemory`.
    Refused(Text, Refusal),
    /// Memory ran out.
    NoMemory,
}

impl From<AllocError> for FirstRefusal {
    ghost use Rattle.generation.specs.declared.first.FirstRefusal.TheVariants.{NoMemory};

    ghost from_gives = { λ _ r. r ≡ NoMemory };

    fn from(_: AllocError) -> FirstRefusal {
        FirstRefusal::NoMemory
    }
}

// The extension of this name is refused so.
fn refused(name: Text, refusal: Refusal) -> FirstRefusal
    ensures { IsRefusedSo name refusal result }
{
    match refusal {
        Refusal::NoMemory => FirstRefusal::NoMemory,
        _ => FirstRefusal::Refused(name, refusal),
    }
}

// The store once this extension is installed too.
fn with(alloc: Global, store: Store, extension: Extension) -> Result<Store, FirstRefusal>
    ensures installed { IfOk result (λ next. spec.install_all store (extension ∷ []) ≡ Ok next) }
    ensures refused { IfErr result (IsFirstRefusal (spec.install_all store (extension ∷ []))) }
{
    let name = Text::build(String::from_str(alloc, extension.name())?);
    match store.install(alloc, extension) {
        Ok(store) => Ok(store),
        Err(refusal) => Err(refused(name, refusal)),
    }
}

// The store once these extensions are installed, one after another.
fn with_all(alloc: Global, extensions: Vec<Extension>) -> Result<Store, FirstRefusal>
    ensures installed { IfOk result (λ store. spec.install_all spec.empty extensions.items ≡ Ok store) }
    ensures refused { IfErr result (IsFirstRefusal (spec.install_all spec.empty extensions.items)) }
{
    let mut store = Store::empty(alloc);
    for extension in extensions {
        store = with(alloc, store, extension)?;
    }
    Ok(store)
}

// The store before any update, once these extensions are installed.
pub(crate) fn first_store(alloc: Global, extensions: Vec<Extension>) -> Result<Store, FirstRefusal>
    ensures opened { IfOk result (λ store. spec.opening extensions.items ≡ Ok store) }
    ensures refused { IfErr result (IsFirstRefusal (spec.opening extensions.items)) }
{
    with_all(alloc, extensions)
}
