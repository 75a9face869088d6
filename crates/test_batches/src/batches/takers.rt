//! Events, handed one by one to a taker.
ghost use Rattle.std.specs.Prelude.{◌≡◌, []};

use super::{TWO_ITEMS, text_of};
use mds_batch::{BatchFault, EventItem, MAX_ITEMS, TakesItems, each_event};
use std::alloc::{AllocError, Global};
use test_fixtures::rows;

/// Takes items up to so many, and finds no memory for another one.
#[derive(Drop)]
pub struct Few {
    pub items: Vec<EventItem>,
    pub most: usize,
}

impl Few {
    pub fn new(alloc: Global, most: usize) -> Few
        ensures { result.items.items ≡ [] }
    {
        Few {
            items: Vec::new(alloc),
            most,
        }
    }
}

impl TakesItems for Few {
    ghost use Rattle.std.specs.Prelude.{◌≡◌, ◌++◌};

    type Item = EventItem;

    ghost took = { λ before items now. now.items.items ≡ before.items.items ++ items };

    fn take(&mut self, item: &EventItem) -> Result<(), AllocError> {
        if self.items.len() == self.most {
            return Err(AllocError);
        }
        Ok(self.items.push(*item)?)
    }
}

/// Pieces of a text with how often each stands, and for how many items the taker has memory; what is said of the text, and
/// how many of its items the taker then has.
type Case = (
    (&'static [(&'static str, usize)], usize),
    (Result<(), BatchFault>, usize),
);

/// The fault of the whole comes behind the items: the taker has those before it.
const CASES: &[Case] = rows! {
    ((&[("[0,{},[]]", 1)], 3), (Ok(()), 3)),
    ((&[("[]", 1)], 0), (Ok(()), 0)),
    ((&[("[0,{},[]]", 1)], 2), (Err(BatchFault::Memory), 2)),
    ((&[("[0,{},[]]", 1)], 0), (Err(BatchFault::Memory), 0)),
    ((&[("[", 1), ("0,", MAX_ITEMS), ("0]", 1)], MAX_ITEMS), (Err(BatchFault::TooMany), MAX_ITEMS)),
    ((&[("[", 1), ("0,", 3), ("]", 1)], 9), (Err(BatchFault::NotJson), 3)),
    ((&[("[0][", 1)], 9), (Err(BatchFault::NotJson), 1)),
    ((&[("\"000\"", 1)], 9), (Err(BatchFault::NotList), 0)),
};

/// The first case that ends otherwise, and how.
fn first_other(
    alloc: Global,
    cases: &[Case],
) -> Result<Option<(usize, (Result<(), BatchFault>, usize))>, AllocError> {
    for (place, ((pieces, most), ended)) in cases.iter().enumerate() {
        let text = text_of(alloc, pieces)?;
        let mut taker = Few::new(alloc, *most);
        let result = each_event(alloc, text.as_bytes(), &mut taker);
        let found = (result, taker.items.len());
        if found != *ended {
            return Ok(Some((place, found)));
        }
    }
    Ok(None)
}

#[test]
fn a_taker_has_the_items_before_a_fault(rt: HostRuntime) {
    assert_eq!(rt; first_other(rt.alloc(), CASES), Ok(None));
}

/// The call, made again where a growth is refused, of its own or of the taker's (by `tests/refused-growths`).
#[test]
fn events_are_handed_on_after_a_refused_growth(rt: HostRuntime) {
    let mut taker = Vec::new(rt.alloc());
    let mut result = each_event(rt.alloc(), TWO_ITEMS, &mut taker);
    if result == Err(BatchFault::Memory) {
        taker.clear();
        result = each_event(rt.alloc(), TWO_ITEMS, &mut taker);
    }
    assert_eq!(rt; (result, taker.len()), (Ok(()), 2));
}

/// How many of five items are taken, each again where the growth for it is refused.
fn five_taken(alloc: Global) -> usize {
    let mut taker: Vec<u8> = Vec::new(alloc);
    for item in 1..6 {
        if TakesItems::take(&mut taker, &item).is_err() {
            let _again = TakesItems::take(&mut taker, &item);
        }
    }
    taker.len()
}

/// An item is taken again where the growth for it is refused.
#[test]
fn an_item_is_taken_after_a_refused_growth(rt: HostRuntime) {
    assert_eq!(rt; five_taken(rt.alloc()), 5);
}
