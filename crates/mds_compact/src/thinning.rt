//! The second pass: which requests of each vehicle stay.
ghost use Rattle.std.specs.Prelude.{◌≡◌, ℕ, [], ◌∷◌, ◌++◌, List, OnOk};
ghost use Rattle.mds_core.specs.declared.request.Request.{Request as Requested};

use crate::path::Path;
use crate::survey::Survey;
use indexmap::IndexMap;
use mds_core::{Key, Request};
use std::alloc::AllocError;
use std::hash::RandomState;

/// The second pass over a history: it marks which requests of each vehicle stay. Contracts say which requests it has taken,
/// and which are still to come.
#[derive(Debug, Drop)]
pub struct Thinning {
    from: u64,
    paths: IndexMap<Key, Path, RandomState>,
}

impl Thinning {
    ghost use Rattle.mds_compact.specs.Passes.{IsSurveyOf, IsThinningOf};

    /// A thinning of the history that was surveyed. Events of the time `from` or later will stay.
    pub fn open(survey: Survey, from: u64) -> Thinning
        ensures { (history : List Requested)
            → IsSurveyOf history survey → IsThinningOf from [] history result }
    {
        Thinning {
            from,
            paths: survey.into_paths(),
        }
    }

    /// Takes the next request of the history. One of a vehicle that wasn't surveyed is left out.
    ///
    /// # Errors
    ///
    /// `AllocError` where there is no memory for its mark. The thinning is of no use then.
    pub fn take(&mut self, request: &Request) -> Result<(), AllocError>
        ensures { OnOk result ((from : ℕ) (old rest : List Requested)
            → IsThinningOf from old (request.now ∷ rest) self.old
            → IsThinningOf from (old ++ request.now ∷ []) rest self.new) }
    {
        let from = self.from;
        match self.paths.get_mut(request.key()) {
            Some(path) => path.take(from, request),
            None => Ok(()),
        }
    }

    /// The ways of the vehicles.
    pub(crate) fn into_paths(self) -> IndexMap<Key, Path, RandomState>
        ensures { result ≡ self.paths }
    {
        self.paths
    }
}
