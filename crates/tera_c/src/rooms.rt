//! From a text to a room that the caller gave.
ghost use Rattle.tera_c.specs.Rooms.{IsDelivered};

use crate::status::{DONE, SMALL};

/// Copies a text into a room where it fits, and says how long it is.
pub(crate) fn deliver(text: &str, room: &mut [u8], len: &mut usize) -> u8
    ensures { IsDelivered text.now room.old room.new len.new result }
{
    let bytes = text.as_bytes();
    *len = bytes.len();
    if room.len() < bytes.len() {
        return SMALL;
    }
    room[..bytes.len()].copy_from_slice(bytes);
    DONE
}
