//! The third pass: whether each request stays.
ghost use Rattle.std.specs.Prelude.{◌≡◌, ℕ, [], ◌∷◌, ◌++◌, List, Bool};
ghost use Rattle.mds_core.specs.declared.request.Request.{Request as Requested};

use crate::path::Path;
use crate::thinning::Thinning;
use indexmap::IndexMap;
use mds_core::{Key, Request};
use std::hash::RandomState;

/// The third pass over a history: it tells of each request whether it stays. Contracts say which marks it has told of which
/// requests, and which are still to come.
#[derive(Debug, Drop)]
pub struct Marking {
    paths: IndexMap<Key, Path, RandomState>,
}

impl Marking {
    ghost use Rattle.mds_compact.specs.Passes.{IsThinningOf, IsMarkingOf};

    /// The marks of the history that was thinned.
    pub fn open(thinning: Thinning) -> Marking
        ensures { (from : ℕ) (history : List Requested)
            → IsThinningOf from history [] thinning → IsMarkingOf from [] history [] result }
    {
        Marking {
            paths: thinning.into_paths(),
        }
    }

    /// Whether the next request of the history stays. One of a vehicle that wasn't surveyed doesn't.
    pub fn next_mark(&mut self, request: &Request) -> bool
        ensures { (from : ℕ) (old rest : List Requested) (marks : List Bool)
            → IsMarkingOf from old (request.now ∷ rest) marks self.old
            → IsMarkingOf from (old ++ request.now ∷ []) rest (marks ++ result ∷ []) self.new }
    {
        match self.paths.get_mut(request.key()) {
            Some(path) => path.next_mark(),
            None => false,
        }
    }
}
