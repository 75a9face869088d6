//! The first pass: what is to come of each vehicle.
ghost use Rattle.std.specs.Prelude.{◌≡◌, ◌<◌, [], ◌∷◌, ◌++◌, List, length, OnOk};
ghost use Rattle.mds_core.specs.declared.request.Request.{Request as Requested};

use crate::path::Path;
use indexmap::IndexMap;
use mds_core::{Key, Request};
use std::alloc::{AllocError, Global};
use std::hash::RandomState;

/// The first pass over a history: it learns when each vehicle's last event was, and how many carry a position. Contracts
/// say of which history this is the survey.
#[derive(Debug, Drop)]
pub struct Survey {
    alloc: Global,
    paths: IndexMap<Key, Path, RandomState>,
}

impl Survey {
    ghost use Rattle.mds_compact.specs.Passes.{IsSurveyOf};

    /// A survey of nothing. It takes no memory. Its look-ups hash by `hasher`: where that is random, nobody can pick keys
    /// that make them slow.
    pub fn open(alloc: Global, hasher: RandomState) -> Survey
        ensures { IsSurveyOf [] result }
    {
        Survey {
            alloc,
            paths: IndexMap::with_hasher(alloc, hasher),
        }
    }

    /// Takes the next request of the history.
    ///
    /// # Errors
    ///
    /// `AllocError` where the vehicle is new and there is no memory for it. The survey is of no use then.
    pub fn note(&mut self, request: &Request) -> Result<(), AllocError>
        ensures { OnOk result ((history : List Requested)
            → length history < usize.MAX → IsSurveyOf history self.old
            → IsSurveyOf (history ++ request.now ∷ []) self.new) }
    {
        if let Some(path) = self.paths.get_mut(request.key()) {
            path.note(request);
            return Ok(());
        }
        let mut path = Path::open(self.alloc)?;
        path.note(request);
        let Ok(_) = self.paths.insert(*request.key(), path) else {
            return Err(AllocError);
        };
        Ok(())
    }

    /// The ways of the vehicles.
    pub(crate) fn into_paths(self) -> IndexMap<Key, Path, RandomState>
        ensures { result ≡ self.paths }
    {
        self.paths
    }
}
