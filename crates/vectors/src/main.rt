//! Prints the listings of many task files, which are packed into standard input one after another: the length of a name in
//! one byte, the name, the length of a file in two bytes, the high byte first, and the file.
#![tactic(auto)]

ghost use Rattle.std.specs.Prelude.{length};
ghost use Rattle.std.specs.Iterator.{at_most};

use listing::listing;
use search::Place;
use std::io::{Read, Write};

/// The places of the search, and the most actions of a plan.
const PLACES: usize = 2_048;

/// A named task file.
#[derive(Clone, Copy)]
struct Named<'a> {
    name: &'a [u8],
    file: &'a [u8],
}

/// The packed files that are left.
#[derive(Drop)]
struct Packed<'a>(&'a [u8]);

impl<'a> Iterator for Packed<'a> {
    type Item = Named<'a>;

    ghost remaining = { λ packed. at_most (length packed.0.now) };

    fn next(&mut self) -> Option<Named<'a>> {
        let (length, rest) = self.0.split_first()?;
        let (name, rest) = rest.split_at_checked(usize::from(*length))?;
        let (size, rest) = rest.split_first_chunk()?;
        let (file, rest) = rest.split_at_checked(usize::from(u16::from_be_bytes(*size)))?;
        self.0 = rest;
        Some(Named { name, file })
    }
}

fn main(rt: HostRuntime) -> anyhow::Result<()> {
    let heap = rt.alloc();
    let mut bytes = Vec::new(heap);
    rt.stdin().read_to_end(&mut bytes)?;
    let mut places = vec![in heap; Place::EMPTY; PLACES]?;
    let mut plan = vec![in heap; 0u16; PLACES]?;
    let mut out = rt.stdout();
    for Named { name, file } in Packed(&bytes) {
        let mut text = String::new(heap);
        listing(&mut text, file, &mut places, &mut plan)?;
        out.write_all(name)?;
        out.write_all(b"\n")?;
        out.write_all(text.as_bytes())?;
    }
    Ok(())
}
