//! The calls of include/shelfline.h, exported for C. A crate is a library or a static library, and not both, so these
//! exports only pass their arguments on to the library `embed`.
#![tactic(auto)]

/// Checks a file, and tells its numbers of atoms and actions.
#[unsafe(no_mangle)]
pub extern "C" fn shelfline_check(file: &[u8], told: &mut [u64]) -> u32 {
    embed::shelfline_check(file, told)
}

/// Tells a bound: direct for way 0, compiled for way 1.
#[unsafe(no_mangle)]
pub extern "C" fn shelfline_bound(file: &[u8], way: u32, order: u32, told: &mut [u64]) -> u32 {
    embed::shelfline_bound(file, way, order, told)
}

/// Searches for a cheapest plan, in a table of some places.
#[unsafe(no_mangle)]
pub extern "C" fn shelfline_search(
    file: &[u8],
    estimator: u32,
    order: u32,
    places: u32,
    plan: &mut [u16],
    told: &mut [u64],
) -> u32 {
    embed::shelfline_search(file, estimator, order, places, plan, told)
}

/// Writes a file's listing.
#[unsafe(no_mangle)]
pub extern "C" fn shelfline_listing(file: &[u8], text: &mut [u8], told: &mut [u64]) -> u32 {
    embed::shelfline_listing(file, text, told)
}
