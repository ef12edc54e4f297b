//! The way that led to a place.
ghost use Rattle.std.specs.Iterator.{at_most};

use crate::Place;

/// The actions on the way to a place, from the last to the first.
#[derive(Drop)]
pub(crate) struct WayBack<'a> {
    places: &'a [Place],
    at: usize,
    /// No way has more actions than there are places.
    left: usize,
}

impl<'a> WayBack<'a> {
    pub(crate) fn new(places: &'a [Place], at: usize) -> WayBack<'a> {
        WayBack {
            places,
            at,
            left: places.len(),
        }
    }
}

impl Iterator for WayBack<'_> {
    type Item = u16;

    ghost remaining = { λ way. at_most way.left };

    fn next(&mut self) -> Option<u16> {
        if self.at == 0 || self.left == 0 {
            return None;
        }
        let place = self.places.get(self.at)?;
        self.at = usize::from(place.parent);
        self.left -= 1;
        Some(place.action)
    }
}
