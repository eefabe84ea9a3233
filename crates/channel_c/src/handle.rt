//! What C holds of a channel.

ghost use Rattle.std.specs.Prelude.{◌≡◌, Option, None, Some, option_map};
ghost use Rattle.channel_c.specs.declared.channel.OpenChannel.{OpenChannel};
ghost use Rattle.channel_c.specs.Held.{channel_coded, handle_owns};

use crate::channel::OpenChannel;
use crate::parts::Parts;
use std::alloc::Global;
use std::marker::Model;
use std::mem::replace;
use std::ptr::null_mut;

/// What C holds of a channel: one that is open, or none. A handle whose bytes are all 0 is closed.
/// Contracts speak of `home`, the channel that it owns.
#[repr(C)]
pub struct Handle {
    ptr: *mut u8,
    alloc: Global,
    is_open: bool,
    pub ghost home: { Option OpenChannel } by { channel_coded },
}

impl Model for Handle {
    ghost also_owns = { λ s. handle_owns s.alloc s.ptr s.is_open s.home };
}

impl Handle {
    /// Returns a handle that is closed.
    fn closed(alloc: Global) -> Handle
        ensures { result.home ≡ None }
    {
        Handle {
            ptr: null_mut(),
            alloc,
            is_open: false,
        }
    }

    /// Returns an open handle of a box in parts.
    fn of_parts(parts: Parts<OpenChannel, Global>) -> Handle
        ensures { result.home ≡ Some parts.value }
    {
        let Parts { ptr, alloc } = parts;
        Handle {
            ptr: ptr.cast::<u8>(),
            alloc,
            is_open: true,
        }
    }

    /// Returns the box of an open handle in parts, or nothing of a closed one.
    fn into_parts(self) -> Option<Parts<OpenChannel, Global>>
        ensures { option_map (λ parts. parts.value) result ≡ self.home }
    {
        let Handle {
            ptr,
            alloc,
            is_open,
        } = self;
        if is_open {
            return Some(Parts {
                ptr: ptr.cast::<OpenChannel>(),
                alloc,
            });
        }
        None
    }

    /// Takes the channel out, if the handle is open, and leaves the handle closed.
    pub fn take(&mut self, alloc: Global) -> Option<Box<OpenChannel>>
        ensures taken { option_map (λ channel. channel.value) result ≡ self.old.home }
        ensures closed { self.new.home ≡ None }
    {
        match replace(self, Handle::closed(alloc)).into_parts() {
            Some(parts) => Some(parts.into_box()),
            None => None,
        }
    }

    /// Puts a channel in, and frees the one that the handle held.
    pub fn put(&mut self, channel: Box<OpenChannel>)
        ensures { self.new.home ≡ Some channel.value }
    {
        *self = Handle::of_parts(Parts::of(channel));
    }
}

impl Drop for Handle {
    fn drop(self) {
        if let Some(parts) = self.into_parts() {
            drop(parts.into_box());
        }
    }
}
