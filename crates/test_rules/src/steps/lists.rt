//! Sets of states answer as plain lists of states do, which ask the table for each row.
use super::place_of;
use mds_steps::admit;
use mds_table::{State, Table, TypeName};
use std::alloc::{AllocError, Global};
use test_fixtures::Lack;
use test_steps::{DEPOT, PROFILE, tables_of};

/// The states to which rows of this type lead from one of these states.
fn next_in_list(
    alloc: Global,
    table: &Table,
    held: &[State],
    kind: &TypeName,
) -> Result<Vec<State>, AllocError> {
    let mut next = Vec::new(alloc);
    for to in State::ALL {
        let mut leads = false;
        for from in held {
            leads = leads || table.has_row(*from, kind, to);
        }
        if leads {
            next.push(to)?;
        }
    }
    Ok(next)
}

/// The states to which events of these types may lead, or the place of the first one that leads nowhere.
fn reached_in_list(
    alloc: Global,
    table: &Table,
    held: State,
    types: &[TypeName],
) -> Result<Result<Vec<State>, usize>, AllocError> {
    let mut reached = Vec::from_slice(alloc, &[held])?;
    for (at, kind) in types.iter().enumerate() {
        reached = next_in_list(alloc, table, &reached, kind)?;
        if reached.is_empty() {
            return Ok(Err(at));
        }
    }
    Ok(Ok(reached))
}

/// Where an event of so many types gets stuck, if it does, by the states to which it may lead.
fn stuck_in_list(
    reached: &Result<Vec<State>, usize>,
    count: usize,
    reported: State,
) -> Option<usize> {
    match reached {
        Ok(states) if states.contains(&reported) => None,
        Ok(_) => Some(count),
        Err(at) => Some(*at),
    }
}

/// For how many pairs of states both ways give one answer about an event of these types, `at` included.
fn count_alike(alloc: Global, table: &Table, types: &[TypeName]) -> Result<usize, AllocError> {
    let mut count = 0usize;
    for held in State::ALL {
        let reached = reached_in_list(alloc, table, held, types)?;
        for reported in State::ALL {
            let stuck = stuck_in_list(&reached, types.len(), reported);
            if place_of(admit(table, held, types, reported)) == stuck {
                count = count.saturating_add(1);
            }
        }
    }
    Ok(count)
}

/// The types of the table, each once.
fn kinds_of(alloc: Global, table: &Table) -> Result<Vec<TypeName>, AllocError> {
    let mut kinds: Vec<TypeName> = Vec::new(alloc);
    for row in table.rows(alloc)? {
        if kinds.last() != Some(&row.kind) {
            kinds.push(row.kind)?;
        }
    }
    Ok(kinds)
}

/// For how many of all lists of one or two types of the table, over all pairs of states, both ways give one answer.
fn count_all_alike(alloc: Global, table: &Table) -> Result<usize, AllocError> {
    let kinds = kinds_of(alloc, table)?;
    let mut count = 0usize;
    for first in &kinds {
        count = count.saturating_add(count_alike(alloc, table, &[*first])?);
        for second in &kinds {
            count = count.saturating_add(count_alike(alloc, table, &[*first, *second])?);
        }
    }
    Ok(count)
}

/// The same of the profile, and of the table of the depot.
fn counts_alike(alloc: Global) -> Result<[usize; 2], Lack> {
    let (profile, depot) = (tables_of(alloc, PROFILE)?, tables_of(alloc, DEPOT)?);
    let first = count_all_alike(alloc, profile.at(0))?;
    Ok([first, count_all_alike(alloc, depot.at(0))?])
}

/// (27 + 27 * 27) * 81 cases over the profile, and (3 + 3 * 3) * 81 over a table that leads to the ninth state, too.
#[test]
fn sets_admit_as_lists_do(rt: HostRuntime) {
    assert_eq!(rt; counts_alike(rt.alloc()), Ok([61_236, 972]));
}
