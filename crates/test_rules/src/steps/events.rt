//! The worked cases.
use super::cases::{Asked, Case, PROFILED, STORED};
use super::{place_of, set_of};
use mds_steps::{admit, forward, least_chain, openings, stuck_from};
use mds_table::{Table, TypeName};
use std::alloc::{AllocError, Global};
use test_fixtures::{Lack, type_of};
use test_steps::{DEPOT, PROFILE, tables_of};

/// So many types, these two by turns.
fn turns_of(alloc: Global, names: [&str; 2], count: usize) -> Result<Vec<TypeName>, AllocError> {
    let mut types = Vec::with_capacity(alloc, count)?;
    for at in 0..count {
        types.push(type_of(names[at % 2]))?;
    }
    Ok(types)
}

/// Whether the answer about an event of these types is this one.
fn is_answer(
    alloc: Global,
    table: &Table,
    types: &[TypeName],
    asked: &Asked,
) -> Result<bool, AllocError> {
    Ok(match asked {
        Asked::Admit(held, reported, stuck) => {
            place_of(admit(table, *held, types, *reported)) == *stuck
        }
        Asked::Chain(held, reported, states) => {
            let found = least_chain(alloc, table, *held, types, *reported)?;
            found.as_deref() == *states
        }
        Asked::Forward(held, states) => {
            forward(table, &set_of(held), types).states().as_slice() == *states
        }
        Asked::Openings(reported, states) => {
            openings(table, types, *reported).states().as_slice() == *states
        }
        Asked::Stuck(held, place) => stuck_from(table, &set_of(held), types) == *place,
    })
}

/// The place of the first case whose answer is another one.
fn first_other(alloc: Global, table: &Table, cases: &[Case]) -> Result<Option<usize>, AllocError> {
    for (at, (names, count, asked)) in cases.iter().enumerate() {
        let types = turns_of(alloc, *names, *count)?;
        if !is_answer(alloc, table, &types, asked)? {
            return Ok(Some(at));
        }
    }
    Ok(None)
}

/// The same over the profile, and over the table of the depot.
fn first_others(
    alloc: Global,
    profiled: &[Case],
    stored: &[Case],
) -> Result<[Option<usize>; 2], Lack> {
    let (profile, depot) = (tables_of(alloc, PROFILE)?, tables_of(alloc, DEPOT)?);
    let first = first_other(alloc, profile.at(0), profiled)?;
    Ok([first, first_other(alloc, depot.at(0), stored)?])
}

#[test]
fn worked_events(rt: HostRuntime) {
    assert_eq!(rt;
        first_others(rt.alloc(), PROFILED, STORED),
        Ok([None, None])
    );
}
