//! Verdicts on the cases.
ghost use Rattle.mds_core.specs.Lawful.{IsLawful};

use super::cases::{Case, LAWFUL, UNLAWFUL};
use super::notes_of;
use mds_core::{Request, run};
use mds_settle::{Note, NoteList, judge, judge_lawful};
use mds_table::Tables;
use std::alloc::{AllocError, Global};
use test_fixtures::{Lack, fence, requests_of};
use test_steps::{Noted, tables_of};

/// The lists of the callers.
fn lists_of(alloc: Global, callers: &[&[Noted]]) -> Result<Vec<Vec<Note>>, Lack> {
    let mut lists = Vec::with_capacity(alloc, callers.len())?;
    for noted in callers {
        lists.push(notes_of(alloc, noted)?)?;
    }
    Ok(lists)
}

/// The place of the fault in a case, if there is one.
fn fault_in(alloc: Global, case: &Case) -> Result<Option<usize>, Lack> {
    let (_, file, shard, asked, callers, _) = case;
    let tables = tables_of(alloc, *file)?;
    let history = requests_of(alloc, asked)?;
    let lists = lists_of(alloc, callers)?;
    Ok(judge(&tables, *shard, &history, &lists).err())
}

/// The name of the first case with the fault at another place.
fn first_misjudged(alloc: Global, cases: &[Case]) -> Result<Option<&'static str>, Lack> {
    for case in cases {
        if fault_in(alloc, case)? != case.5 {
            return Ok(Some(case.0));
        }
    }
    Ok(None)
}

#[test]
fn unlawful_cases(rt: HostRuntime) {
    assert_eq!(rt; first_misjudged(rt.alloc(), UNLAWFUL), Ok(None));
}

/// How many notes the first caller has.
fn first_count<S: NoteList>(lists: &[S]) -> Option<usize> {
    match lists.first() {
        Some(list) => Some(list.notes().len()),
        None => None,
    }
}

/// The places of the fault that both calls tell of in this history, its length, and how many notes the first caller has.
fn told(
    tables: &Tables,
    shard: usize,
    history: &[Request],
    lists: &[Vec<Note>],
) -> ([Option<usize>; 2], usize, Option<usize>)
    requires { IsLawful tables.now history.now }
{
    let faults = [
        judge(tables, shard, history, lists).err(),
        judge_lawful(tables, shard, history, lists).err(),
    ];
    (faults, history.len(), first_count(lists))
}

/// The same of the history that a machine accepts of the requests, between two fences once the machine has it.
fn told_between(
    alloc: Global,
    tables: &Tables,
    shard: usize,
    requests: &[Request],
    lists: &[Vec<Note>],
) -> Result<([Option<usize>; 2], usize, Option<usize>), AllocError> {
    let (fleet, _) = run(alloc, tables.copy(alloc)?, requests)?;
    let _begun = fence(alloc);
    let found = told(tables, shard, fleet.history(), lists);
    let _ended = fence(alloc);
    Ok(found)
}

/// Whether both calls tell of the fault in a case whose history is lawful.
fn is_judged(alloc: Global, case: &Case) -> Result<bool, Lack> {
    let (_, file, shard, asked, callers, fault) = case;
    let requests = requests_of(alloc, asked)?;
    let lists = lists_of(alloc, callers)?;
    let told = told_between(alloc, &tables_of(alloc, *file)?, *shard, &requests, &lists)?;
    let count = match callers.first() {
        Some(noted) => Some(noted.len()),
        None => None,
    };
    Ok(told == ([*fault; 2], asked.len(), count))
}

/// The name of the first such case of which one of them tells otherwise.
fn first_misjudged_lawful(alloc: Global, cases: &[Case]) -> Result<Option<&'static str>, Lack> {
    for case in cases {
        if !is_judged(alloc, case)? {
            return Ok(Some(case.0));
        }
    }
    Ok(None)
}

#[test]
fn lawful_cases_with_every_growth_refused(rt: HostRuntime) {
    assert_eq!(rt; first_misjudged_lawful(rt.alloc(), LAWFUL), Ok(None));
}
