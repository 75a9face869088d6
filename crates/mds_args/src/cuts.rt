//! The cuts that the words of `compact` ask for.
ghost use Rattle.std.specs.Prelude.{List, map, drop, IfOk, MatchOption};
ghost use Rattle.clap.specs.Words.{found_of, rows_of};
ghost use Rattle.mds_args.specs.Words.{AreCuts, HasCuts, IsFirstCut};
ghost use Rattle.mds_args.specs.declared.cuts.CutWords.{CutWords as Words};

use crate::words::number_in;
use clap::ArgMatches;
use std::alloc::{AllocError, Global};

/// Of a vehicle's events the first ones stay.
#[derive(Debug, Clone, Copy, PartialEq, Eq)]
pub struct CutWords<'a> {
    /// The vehicle's provider, as it was written.
    pub provider: &'a str,
    /// The vehicle's device, as it was written.
    pub device: &'a str,
    /// How many of its events stay.
    pub events: u64,
}

/// How many words a cut has.
const WORDS: usize = 3;

/// The most events that a cut may name.
const MAX_EVENTS: u64 = 1_000_000_000_000;

/// The cuts that the values of `--cut` ask for, or `None` where they ask for none such.
pub(crate) fn cuts_of<'a>(
    alloc: Global,
    values: &ArgMatches<'a>,
) -> Result<Option<Vec<CutWords<'a>>>, AllocError>
    ensures { IfOk result (λ found. MatchOption found
        ((cuts : List Words) → HasCuts (rows_of (found_of values.now)) cuts → ⊥)
        (λ cuts. HasCuts (rows_of (found_of values.now)) cuts.items)) }
{
    match values.get_raw("cut") {
        Some(words) => cuts_in(alloc, words),
        None => Ok(Some(Vec::new(alloc))),
    }
}

fn cuts_in<'a>(alloc: Global, words: &[&'a str]) -> Result<Option<Vec<CutWords<'a>>>, AllocError>
    ensures { IfOk result (λ found. MatchOption found
        ((cuts : List Words) → AreCuts (map (λ word. word.now) words.now) cuts → ⊥)
        (λ cuts. AreCuts (map (λ word. word.now) words.now) cuts.items)) }
{
    let mut cuts = Vec::new(alloc);
    let mut left = words;
    'cuts: while !left.is_empty() {
        let Some(cut) = first_cut(left) else {
            return Ok(None);
        };
        cuts.push(cut)?;
        left = &left[WORDS..];
    }
    Ok(Some(cuts))
}

fn first_cut<'a>(words: &[&'a str]) -> Option<CutWords<'a>>
    ensures { MatchOption result
        ((cut : Words) → IsFirstCut (map (λ word. word.now) words.now) cut → ⊥)
        (IsFirstCut (map (λ word. word.now) words.now)) }
{
    if words.len() < WORDS {
        return None;
    }
    let events = number_in(words[2], 0, MAX_EVENTS)?;
    Some(CutWords {
        provider: words[0],
        device: words[1],
        events,
    })
}
