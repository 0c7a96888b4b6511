//! The handle of a stack, and what it holds.
ghost use Rattle.std.specs.Prelude.{◌≡◌, true, Some, None, Option, is_some, option_map};
ghost use Rattle.std.specs.declared.alloc.Global.{Global as Heap};
ghost use Rattle.ao_stack.specs.declared.counted_stack.CountedStack.{CountedStack as OneStack};
ghost use Rattle.aotcp_c.specs.Held.{held_stack, content};

use crate::loose::Loose;
use ao_stack::CountedStack;
use std::alloc::Global;
use std::marker::Model;
use std::ptr::null_mut;

/// A pointer to a box of a stack, or to nothing.
#[repr(C)]
#[derive(Drop)]
pub struct Place {
    at: *mut u8,
    ghost value: { Option (OneStack × Heap) },
}

impl Model for Place {
    ghost also_owns = { λ p. held_stack p.at p.value };
}

impl Place {
    /// It holds nothing.
    fn none() -> Place
        ensures { content result.value ≡ None }
    {
        Place { at: null_mut() }
    }

    /// It holds what the box held.
    fn of(loose: Loose<CountedStack, Global>) -> Place
        ensures { content result.value ≡ Some loose.value }
    {
        let Loose { at, alloc: _ } = loose;
        Place { at: at as *mut u8 }
    }

    /// The box again.
    fn into_loose(self, alloc: Global) -> Loose<CountedStack, Global>
        requires { is_some (content self.value) ≡ true }
        ensures { content self.value ≡ Some result.value }
    {
        let Place { at } = self;
        Loose {
            at: at as *mut CountedStack,
            alloc,
        }
    }
}

/// A stack, or none: all of it zero. A C program keeps it, and hands it to each call.
#[repr(C)]
#[derive(Drop)]
pub struct Handle {
    live: bool,
    place: Place,
    ghost agrees: { live ≡ is_some (content place.value) },
}

impl Handle {
    /// It holds none.
    pub(crate) fn none() -> Handle
        ensures { content result.place.value ≡ None }
    {
        Handle {
            live: false,
            place: Place::none(),
        }
    }

    /// It holds this one.
    pub(crate) fn of(stack: Box<CountedStack, Global>) -> Handle
        ensures { content result.place.value ≡ Some stack.value }
    {
        Handle {
            live: true,
            place: Place::of(Loose::of(stack)),
        }
    }

    /// The stack that it holds.
    pub(crate) fn into_box(self, alloc: Global) -> Option<Box<CountedStack, Global>>
        ensures { option_map (λ b. b.value) result ≡ content self.place.value }
    {
        if self.live {
            Some(self.place.into_loose(alloc).into_box())
        } else {
            None
        }
    }
}
