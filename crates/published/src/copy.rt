ghost use Rattle.std.specs.Prelude.{◌≡◌, IfOk};
ghost use Rattle.std.specs.Arc.{arc_value};
ghost use Rattle.generation.specs.Basis.{Basis};

use crate::Entry;
use generation::Generation;
use history::Log;
use left_right::Absorb;
use std::alloc::AllocError;
use std::marker::Model;
use std::sync::Arc;

// What readers see: the generation in force, and the log of the entries that made it.
#[derive(Drop)]
pub struct Shown {
    generation: Arc<Generation>,
    log: Log<Entry>,
}

impl Model for Shown {
    ghost use Rattle.std.specs.Arc.{arc_value};
    ghost use Rattle.generation.specs.Basis.{Basis};
    ghost use Rattle.published.specs.Shared.{Copy};

    ghost Value = { Copy };

    ghost view = { λ s. record { basis = arc_value {X = Basis} s.generation; book = s.log.book; list = s.log.list } };
}

impl Shown {
    pub fn new(generation: Arc<Generation>, log: Log<Entry>) -> Shown
        ensures { result ≡ record { basis = arc_value {X = Basis} generation; book = log.book; list = log.list } }
    {
        Shown { generation, log }
    }

    pub fn generation(&self) -> &Generation
        ensures { result.now ≡ self.now.basis }
    {
        &self.generation
    }

    pub fn log(&self) -> &Log<Entry>
        ensures { result.now ≡ record { book = self.now.book; list = self.now.list } }
    {
        &self.log
    }

    // An equal copy, which shares the generation.
    pub fn again(&self) -> Result<Shown, AllocError>
        ensures { IfOk result (λ copy. copy ≡ self.now) }
    {
        Ok(Shown {
            generation: Arc::try_clone(&self.generation)?,
            log: self.log.again(),
        })
    }
}

// An operation is the copy that comes next. To catch up with one moves it, and cannot fail.
impl Absorb<Shown> for Shown {
    ghost use Rattle.published.specs.Shared.{latest};

    type State = Shown;

    ghost state = { λ s. s };

    ghost applied = { latest };

    fn absorb_first(&mut self, operation: &Shown, _other: &Shown) -> Result<(), AllocError> {
        *self = operation.again()?;
        Ok(())
    }

    fn absorb_second(&mut self, operation: Shown, _other: &Shown) -> Result<(), Shown> {
        *self = operation;
        Ok(())
    }
}
