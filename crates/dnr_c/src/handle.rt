// An engine behind one pointer that C keeps.
ghost use Rattle.std.specs.Prelude.{◌≡◌, Option, Some, None, is_some, IsTrue, true};
ghost use Rattle.engine.specs.Held.{Held};
ghost use Rattle.dnr_c.specs.Owns.{engine_coded, handle_owns};

use crate::parts::Parts;
use engine::Engine;
use std::alloc::Global;
use std::marker::{Model, Send};
use std::ptr::null_mut;

// Its type says nothing of the engine, since a type that leads to what threads share does not cross to C.
#[repr(C)]
#[derive(Drop)]
pub struct Handle {
    ptr: *mut u8,
    alloc: Global,
    pub ghost engine: { Option Held } by { engine_coded },
}

impl Model for Handle {
    ghost also_owns = { λ h. handle_owns h.alloc h.ptr h.engine };
}

impl Handle {
    pub(crate) fn of(engine: Box<Engine, Global>) -> Handle
        ensures { result.engine ≡ Some engine.value }
    {
        Handle::of_parts(Parts::of(engine))
    }

    pub(crate) fn empty(alloc: Global) -> Handle
        ensures { result.engine ≡ None }
    {
        Handle {
            ptr: null_mut(),
            alloc,
        }
    }

    pub(crate) fn into_box(self) -> Box<Engine, Global>
        requires { is_some self.engine ≡ true }
        ensures { Some result.value ≡ self.engine }
    {
        self.into_parts().into_box()
    }

    fn of_parts(parts: Parts<Engine, Global>) -> Handle
        ensures { result.engine ≡ Some parts.value }
    {
        let Parts { ptr, alloc } = parts;
        Handle {
            ptr: ptr as *mut u8,
            alloc,
        }
    }

    fn into_parts(self) -> Parts<Engine, Global>
        requires { is_some self.engine ≡ true }
        ensures { Some result.value ≡ self.engine }
    {
        let Handle { ptr, alloc } = self;
        Parts {
            ptr: ptr as *mut Engine,
            alloc,
        }
    }
}

// C may give a handle to another thread.
unsafe impl Send for Handle {}
