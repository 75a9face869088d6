//! The cuts that words ask for.
ghost use Rattle.std.specs.Prelude.{List, IfOk, IfErr, MatchOption};
ghost use Rattle.mds_compact.specs.declared.cutting.Cut.{Cut as OneCut};
ghost use Rattle.mds_city.specs.Cuts.{AreCutsOf, ExplainsCuts, IsCutOf};

use mds_args::CutWords;
use mds_commands::{DebugProblem, Named, Problem};
use mds_compact::Cut;
use std::alloc::Global;

/// The cuts that these words ask for.
///
/// # Errors
///
/// `BadIdentifier` where a word that should name a vehicle is no identifier; `Other` for want of memory.
pub(crate) fn cuts_of<'a>(
    alloc: Global,
    words: &[CutWords<'_>],
) -> Result<Vec<Cut>, DebugProblem<'a>>
    ensures ok { IfOk result (λ cuts. AreCutsOf words.now cuts.items) }
    ensures err { IfErr result (ExplainsCuts words.now) }
{
    let mut cuts = Vec::with_capacity(alloc, words.len())?;
    for one in words {
        let Some(cut) = cut_of(one) else {
            return Err(DebugProblem::BadIdentifier);
        };
        let Ok(_) = cuts.push(cut) else {
            return Err(DebugProblem::from(Problem::Memory));
        };
    }
    Ok(cuts)
}

fn cut_of(words: &CutWords<'_>) -> Option<Cut>
    ensures { MatchOption result ((cut : OneCut) → IsCutOf words.now cut → ⊥) (IsCutOf words.now) }
{
    let named = Named {
        provider: words.provider,
        device: words.device,
    };
    let key = named.key()?;
    Some(Cut {
        key,
        events: words.events as usize,
    })
}
