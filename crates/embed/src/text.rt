//! Text written to a lent buffer.
ghost use Rattle.std.specs.Prelude.{◌≤◌, length};

use std::fmt;

/// A lent buffer that is written from its front: its size, and what is left of it.
#[derive(Drop)]
pub(crate) struct Text<'a> {
    size: usize,
    rest: &'a mut [u8],
    ghost within: { length rest.now ≤ size },
}

impl<'a> Text<'a> {
    pub(crate) fn new(bytes: &'a mut [u8]) -> Text<'a> {
        Text {
            size: bytes.len(),
            rest: bytes,
        }
    }

    /// How many bytes are written.
    pub(crate) fn len(&self) -> usize {
        self.size - self.rest.len()
    }
}

impl fmt::Write for Text<'_> {
    fn write_str(&mut self, s: &str) -> fmt::Result {
        let fits = s.len().min(self.rest.len());
        if let Some(front) = self.rest.split_off_mut(..fits) {
            // byte by byte: with `copy_from_slice` the static library would need `memmove` of its host
            for (place, byte) in front.iter_mut().zip(s.bytes()) {
                *place = byte;
            }
        }
        if fits < s.len() {
            Err(fmt::Error)
        } else {
            Ok(())
        }
    }
}
