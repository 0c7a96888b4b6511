//! The handle of a shim, and what it holds.
ghost use Rattle.std.specs.Prelude.{◌≡◌, true, Some, None, Option, is_some, option_map};
ghost use Rattle.std.specs.declared.alloc.Global.{Global as Heap};
ghost use Rattle.shim_pairs.specs.Holdings.{ShimState as OneShim};
ghost use Rattle.aotcp_c.specs.Held.{content, held_shim};

use crate::loose::Loose;
use shim_pairs::Shim;
use std::alloc::Global;
use std::marker::Model;
use std::ptr::null_mut;

/// A pointer to a box of a shim, or to nothing.
#[repr(C)]
#[derive(Drop)]
pub struct ShimPlace {
    at: *mut u8,
    ghost value: { Option (OneShim × Heap) },
}

impl Model for ShimPlace {
    ghost also_owns = { λ p. held_shim p.at p.value };
}

impl ShimPlace {
    /// It holds nothing.
    fn none() -> ShimPlace
        ensures { content result.value ≡ None }
    {
        ShimPlace { at: null_mut() }
    }

    /// It holds what the box held.
    fn of(loose: Loose<Shim, Global>) -> ShimPlace
        ensures { content result.value ≡ Some loose.value }
    {
        let Loose { at, alloc: _ } = loose;
        ShimPlace { at: at as *mut u8 }
    }

    /// The box again.
    fn into_loose(self, alloc: Global) -> Loose<Shim, Global>
        requires { is_some (content self.value) ≡ true }
        ensures { content self.value ≡ Some result.value }
    {
        let ShimPlace { at } = self;
        Loose {
            at: at as *mut Shim,
            alloc,
        }
    }
}

/// A shim, or none: all of it zero. A C program keeps it, and hands it to each call.
#[repr(C)]
#[derive(Drop)]
pub struct ShimHandle {
    live: bool,
    place: ShimPlace,
    ghost agrees: { live ≡ is_some (content place.value) },
}

impl ShimHandle {
    /// It holds none.
    pub(crate) fn none() -> ShimHandle
        ensures { content result.place.value ≡ None }
    {
        ShimHandle {
            live: false,
            place: ShimPlace::none(),
        }
    }

    /// It holds this one.
    pub(crate) fn of(shim: Box<Shim, Global>) -> ShimHandle
        ensures { content result.place.value ≡ Some shim.value }
    {
        ShimHandle {
            live: true,
            place: ShimPlace::of(Loose::of(shim)),
        }
    }

    /// The shim that it holds.
    pub(crate) fn into_box(self, alloc: Global) -> Option<Box<Shim, Global>>
        ensures { option_map (λ b. b.value) result ≡ content self.place.value }
    {
        if self.live {
            Some(self.place.into_loose(alloc).into_box())
        } else {
            None
        }
    }
}
