//! Reads a task file from standard input and prints its listing.
#![tactic(auto)]

use listing::listing;
use search::Place;
use std::io::Read;

/// No file that is accepted is longer, and the fault of a longer one stands before this.
const MOST_BYTES: u64 = 16_384;

/// The places of the search, and the most actions of a plan.
const PLACES: usize = 2_048;

fn main(rt: HostRuntime) -> anyhow::Result<()> {
    let heap = rt.alloc();
    let mut bytes = Vec::new(heap);
    rt.stdin().take(MOST_BYTES).read_to_end(&mut bytes)?;
    let mut places = vec![in heap; Place::EMPTY; PLACES]?;
    let mut plan = vec![in heap; 0u16; PLACES]?;
    let mut text = String::new(heap);
    listing(&mut text, &bytes, &mut places, &mut plan)?;
    rt.print(text)?;
    Ok(())
}
