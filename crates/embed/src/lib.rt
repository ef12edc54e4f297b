//! The planner for controllers in C: include/shelfline.h says what each call does. The crate `embed_c` exports these calls.
//! A call answers a number, since C knows no `Result`. Numbers of C become sizes, and sizes become numbers, by `as`: there is no
//! `From` between them.
#![tactic(auto)]

mod choice;
mod failure;
mod text;

use choice::{Estimator, Way};
use failure::{Failure, number};
use listing::listing;
use search::{Answer, Place};
use strips::{Denial, RowTable, Task};
use taskfile::FileView;
use text::Text;

/// The places of the largest search table.
const MOST_PLACES: usize = 4_096;

/// The places of the listing's search table, and the most actions of its plan.
const LISTING_PLACES: usize = 2_048;

/// Tells what a call answered, or what its failure tells. Answers 0, or the number of the refusal. Each call makes its slice of N
/// numbers itself: a closure that answers N numbers is not covered by the borrow checker yet.
fn answer<const N: usize>(told: &mut [u64; N], outcome: Result<[u64; N], Failure>) -> u32 {
    match outcome {
        Ok(numbers) => {
            *told = numbers;
            0
        }
        Err(failure) => {
            failure.tell(told);
            failure.number()
        }
    }
}

/// Reads a file into a row table. The table is lent, since one that is handed out is copied several times on the way.
fn read(file: &[u8], task: &mut RowTable) -> Result<(), Failure> {
    let view = FileView::open(file)?;
    task.copy_from(&view)?;
    Ok(())
}

/// The numbers of atoms and actions of a file.
fn check(file: &[u8]) -> Result<[u64; 2], Failure> {
    let view = FileView::open(file)?;
    Ok([view.atoms() as u64, view.actions() as u64])
}

/// Checks a file, and tells its numbers of atoms and actions.
pub fn shelfline_check(file: &[u8], told: &mut [u64]) -> u32 {
    let Some(told) = told.first_chunk_mut() else {
        return number(Denial::DoesNotFit);
    };
    answer(told, check(file))
}

/// 1 and the bound from a file's start, or twice 0 where it is none.
fn bound(file: &[u8], way: u32, order: u32) -> Result<[u64; 2], Failure> {
    let mut task = RowTable::new();
    read(file, &mut task)?;
    let bound = Way::try_from(way)?.bound(&task, order as usize)?;
    Ok(bound.map_or([0, 0], |bound| [1, u64::from(bound)]))
}

/// Tells a bound: direct for way 0, compiled for way 1.
pub fn shelfline_bound(file: &[u8], way: u32, order: u32, told: &mut [u64]) -> u32 {
    let Some(told) = told.first_chunk_mut() else {
        return number(Denial::DoesNotFit);
    };
    answer(told, bound(file, way, order))
}

/// 1, the length of a cheapest plan, its cost and the places used, or 0, 0, 0 and the places used where there is no plan.
fn search(
    file: &[u8],
    estimator: u32,
    order: u32,
    places: u32,
    plan: &mut [u16],
) -> Result<[u64; 4], Failure> {
    let mut task = RowTable::new();
    read(file, &mut task)?;
    let estimator = Estimator::try_from(estimator)?;
    let mut table = [Place::EMPTY; MOST_PLACES];
    let room = (places as usize).min(MOST_PLACES);
    let answer = estimator.search(&task, order as usize, &mut table[0..room], plan)?;
    Ok(match answer {
        Answer::Found((length, cost, used)) => [1, length as u64, u64::from(cost), used as u64],
        Answer::Nothing(used) => [0, 0, 0, used as u64],
    })
}

/// Searches for a cheapest plan, in a table of some places, with an estimator: 0 blind, 1 direct, 2 by compiling.
pub fn shelfline_search(
    file: &[u8],
    estimator: u32,
    order: u32,
    places: u32,
    plan: &mut [u16],
    told: &mut [u64],
) -> u32 {
    let Some(told) = told.first_chunk_mut() else {
        return number(Denial::DoesNotFit);
    };
    answer(told, search(file, estimator, order, places, plan))
}

/// The length of a file's listing, which is written to `text`.
fn list(file: &[u8], text: &mut [u8]) -> Result<[u64; 1], Failure> {
    let mut places = [Place::EMPTY; LISTING_PLACES];
    let mut plan = [0u16; LISTING_PLACES];
    let mut out = Text::new(text);
    listing(&mut out, file, &mut places, &mut plan).map_err(|_| Denial::DoesNotFit)?;
    Ok([out.len() as u64])
}

/// Writes a file's listing.
pub fn shelfline_listing(file: &[u8], text: &mut [u8], told: &mut [u64]) -> u32 {
    let Some(told) = told.first_chunk_mut() else {
        return number(Denial::DoesNotFit);
    };
    answer(told, list(file, text))
}
