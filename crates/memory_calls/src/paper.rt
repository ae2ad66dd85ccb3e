//! Texts that grow, and rooms.
use crate::answers::tell;
use crate::made::Made;
use std::alloc::Global;
use tera_report::TeraResult;
use tera_report::sink::{Growing, Room, Sink};

/// What text goes to.
pub fn tell_papers(rt: &(impl Print + AllocGlobal), made: &Made) {
    let (alloc, text) = (rt.alloc(), made.text.as_str());
    tell(rt, "Growing::new", Ok(Growing::new(alloc).into_text()));
    tell(rt, "Growing::with_capacity", with_room(alloc, text));
    tell(rt, "Growing::put", grown(alloc, text));
    tell(rt, "Room::new", in_a_room(alloc, text));
}

fn with_room(alloc: Global, text: &str) -> TeraResult<String> {
    let mut made = Growing::with_capacity(alloc, text.len())?;
    made.put(text)?;
    Ok(made.into_text())
}

fn grown(alloc: Global, text: &str) -> TeraResult<String> {
    let mut made = Growing::new(alloc);
    made.put(text)?;
    made.put(text)?;
    Ok(made.into_text())
}

// A room of just that size has place for the text.
fn in_a_room(alloc: Global, text: &str) -> TeraResult<(bool, String)> {
    let mut room = Room::new(alloc, text.len())?;
    let is_put = room.put(text).is_ok();
    Ok((is_put, room.into_text()))
}
