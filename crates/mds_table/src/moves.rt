//! The rows of a table by their types: for each type and state, the states that its rows lead to.
ghost use Rattle.std.specs.Prelude.{◌≡◌, ◌⊎◌, ℕ, ◌++◌, ◌∷◌, [], List, true, Contains, IfOk, OnOk, MatchResult};
ghost use Rattle.mds_table.specs.declared.row.Row.{Row};
ghost use Rattle.mds_table.specs.declared.moves.Moves.{Moves};
ghost use Rattle.mds_table.specs.Row.{ascends, in_order};
ghost use Rattle.mds_table.specs.Mask.{IsMask, AreMasks};
ghost use Rattle.mds_table.specs.Moves.{moves_cmp, AreMoves, HasKind, HasKindAt, HasGapAt, GrowsBy, IsRowOf, IsRowOfMask};
ghost use Rattle.mds_table.specs.Entry.{Adds};

use crate::mask::{self, Mask, bit_of};
use crate::row::{add_row, has_row_of};
use crate::{Row, State, TypeName};
use std::alloc::{AllocError, Global};

/// Where the events of a type may lead.
#[derive(Debug, Drop)]
pub(crate) struct Moves {
    pub kind: TypeName,
    /// The states that its rows lead to, from each state by code.
    pub masks: [Mask; State::COUNT],
}

pub(crate) fn moves_of(alloc: Global, rows: &[Row]) -> Result<Vec<Moves>, AllocError>
    requires { in_order rows.now ≡ true }
    ensures { IfOk result (λ moves. AreMoves rows.now rows.now moves.items) }
{
    let mut moves = Vec::new(alloc);
    for row in rows {
        add_kind(&mut moves, rows, &row.kind)?;
    }
    Ok(moves)
}

/// The masks are empty where the type isn't there.
pub(crate) fn masks_among(moves: &[Moves], kind: &TypeName) -> [Mask; State::COUNT]
    requires { ascends moves_cmp moves.now ≡ true }
    ensures { (rows : List Row) → AreMoves rows rows moves.now → AreMasks rows kind.now result }
{
    match place_of(moves, kind) {
        Ok(at) => moves[at].masks,
        Err(_) => [0; State::COUNT],
    }
}

/// The type's rows are now those of the masks.
pub(crate) fn put_masks(
    moves: &mut Vec<Moves>,
    kind: &TypeName,
    masks: [Mask; State::COUNT],
) -> Result<(), AllocError>
    requires { ascends moves_cmp moves.old.items ≡ true }
    ensures moves { OnOk result ((rows more : List Row) → AreMoves rows rows moves.old.items
        → GrowsBy rows more kind.now → AreMasks more kind.now masks
        → AreMoves more more moves.new.items) }
    ensures kinds { OnOk result ((m : Moves) → Contains moves.new.items m
        → HasKind moves.old.items m.kind ⊎ (m.kind ≡ kind.now)) }
{
    let of_kind = Moves {
        kind: kind.copy(),
        masks,
    };
    match place_of(moves, kind) {
        Ok(at) => moves[at] = of_kind,
        Err(at) => moves.insert(at, of_kind)?,
    }
    Ok(())
}

/// The rows of the moves, of which there may be so many.
pub(crate) fn rows_of(alloc: Global, moves: &[Moves], count: usize) -> Result<Vec<Row>, AllocError>
    ensures { IfOk result (λ rows. (all : List Row)
        → in_order all ≡ true → AreMoves all all moves.now → rows.items ≡ all) }
{
    let mut rows = Vec::with_capacity(alloc, count)?;
    for of_kind in moves {
        add_rows_of(&mut rows, of_kind, &State::ALL)?;
    }
    Ok(rows)
}

fn add_rows_of(rows: &mut Vec<Row>, moves: &Moves, states: &[State]) -> Result<(), AllocError>
    requires { in_order rows.old.items ≡ true }
    ensures order { OnOk result (in_order rows.new.items ≡ true) }
    ensures rows { OnOk result (Adds rows.old.items rows.new.items
        (λ row. Contains states.now row.from × IsRowOf moves.now row)) }
{
    for from in states {
        let mask = moves.masks[usize::from(from.code())];
        add_rows_of_mask(rows, *from, &moves.kind, mask, &State::ALL)?;
    }
    Ok(())
}

fn add_rows_of_mask(
    rows: &mut Vec<Row>,
    from: State,
    kind: &TypeName,
    mask: Mask,
    states: &[State],
) -> Result<(), AllocError>
    requires { in_order rows.old.items ≡ true }
    ensures order { OnOk result (in_order rows.new.items ≡ true) }
    ensures rows { OnOk result (Adds rows.old.items rows.new.items
        (λ row. Contains states.now row.to × IsRowOfMask from kind.now mask row)) }
{
    for to in states {
        if mask::has(mask, *to) {
            add_row(
                rows,
                Row {
                    from,
                    kind: kind.copy(),
                    to: *to,
                },
            )?;
        }
    }
    Ok(())
}

fn place_of(moves: &[Moves], kind: &TypeName) -> Result<usize, usize>
    requires { ascends moves_cmp moves.now ≡ true }
    ensures { MatchResult result (HasKindAt moves.now kind.now) (HasGapAt moves.now kind.now) }
{
    moves.binary_search_by(|other| other.kind.cmp(kind))
}

fn add_kind(moves: &mut Vec<Moves>, rows: &[Row], kind: &TypeName) -> Result<(), AllocError>
    requires rows { in_order rows.now ≡ true }
    requires moves { ascends moves_cmp moves.old.items ≡ true }
    ensures { OnOk result ((seen : List Row) (row : Row) → row.kind ≡ kind.now
        → AreMoves rows.now seen moves.old.items
        → AreMoves rows.now (seen ++ row ∷ []) moves.new.items) }
{
    if let Err(at) = place_of(moves, kind) {
        let masks = masks_of(rows, kind);
        moves.insert(
            at,
            Moves {
                kind: kind.copy(),
                masks,
            },
        )?;
    }
    Ok(())
}

fn masks_of(rows: &[Row], kind: &TypeName) -> [Mask; State::COUNT]
    requires { in_order rows.now ≡ true }
    ensures { AreMasks rows.now kind.now result }
{
    let mut masks = [0; State::COUNT];
    for from in &State::ALL {
        masks[usize::from(from.code())] = mask_of(rows, kind, *from);
    }
    masks
}

fn mask_of(rows: &[Row], kind: &TypeName, from: State) -> Mask
    requires { in_order rows.now ≡ true }
    ensures { IsMask rows.now kind.now from result }
{
    let mut mask = 0;
    for to in &State::ALL {
        if has_row_of(rows, from, kind, *to) {
            mask |= bit_of(*to);
        }
    }
    mask
}
