//! What the program never asks of an order.
use priority_filter::Rule::{Under, UnderAt};
use priority_filter::Side::Whole;
use priority_filter::{At, InteractionSet, Order, OrderFault, SEEN_ATOMS, Seen};
use std::alloc::Global;
use std::test::Fail;

/// The same of each atom.
fn all_seen(known: bool, places: u64) -> [Seen; SEEN_ATOMS] {
    [Seen { known, places }; SEEN_ATOMS]
}

/// Three interactions, each under the next; the second rule counts while place 1 of atom 0 is marked.
fn three_in_a_row(alloc: Global) -> Result<Order, OrderFault> {
    let at = At { atom: 0, place: 1 };
    let rules = [Under(Whole(0), Whole(1)), UnderAt(Whole(1), Whole(2), at)];
    Order::new(alloc, &rules, &[(0, 1), (1, 1), (2, 1)])
}

#[test]
fn an_order_tells_what_is_below(rt: HostRuntime) -> Result<(), Fail> {
    let order = three_in_a_row(rt.alloc())?;
    let marked = all_seen(true, 2);
    assert!(rt; order.below_at(0, 2, &marked));
    assert!(rt; !order.below_at(2, 0, &marked));
    assert!(rt; !order.below_at(1, 1, &marked));
    assert!(rt; !order.below_at(0, 65535, &marked));
    // While another place is marked the chain breaks; where nothing is known it may hold.
    let other = all_seen(true, 1);
    assert!(rt; !order.below_at(0, 2, &other));
    assert!(rt; order.below_at(0, 1, &other));
    assert!(rt; order.below_at(0, 2, &all_seen(false, 0)));
    Ok(())
}

/// Which of the three stay where these are the rivals, bit k for interaction k.
fn filtered(order: &Order, seen: &[Seen; SEEN_ATOMS], rivals: u64) -> u64 {
    let mut all = InteractionSet::new();
    all.set_word(0, 7);
    let mut others = InteractionSet::new();
    others.set_word(0, rivals);
    let mut kept = InteractionSet::new();
    order.filter(seen, &all, &others, 1, &mut kept);
    kept.word(0)
}

#[test]
fn a_filter_leaves_what_no_rival_is_above(rt: HostRuntime) -> Result<(), Fail> {
    let order = three_in_a_row(rt.alloc())?;
    let rows = (all_seen(true, 2), all_seen(true, 1), all_seen(false, 0));
    // What stays while the place is marked, while another one is, and where nothing is known.
    for (rivals, marked, other, unknown) in [
        (4, 4, 7, 4),
        (2, 6, 6, 6),
        (1, 7, 7, 7),
        (0, 7, 7, 7),
    ] {
        assert!(&rt; filtered(&order, &rows.0, rivals) == marked, "{rivals}");
        assert!(&rt; filtered(&order, &rows.1, rivals) == other, "{rivals}");
        assert!(&rt; filtered(&order, &rows.2, rivals) == unknown, "{rivals}");
    }
    Ok(())
}

/// The places of the atom for which a rule with this condition asks; or why it is no rule.
fn asked_places(alloc: Global, at: At) -> Result<u64, OrderFault> {
    let rules = [UnderAt(Whole(0), Whole(1), at)];
    let order = Order::new(alloc, &rules, &[(0, 1), (1, 1)])?;
    Ok(order.watched(at.atom))
}

#[test]
fn a_condition_asks_for_one_place(rt: HostRuntime) -> Result<(), Fail> {
    for (atom, place, places) in [
        (0, 0, Ok(1)),
        (0, 1, Ok(2)),
        (63, 63, Ok(9_223_372_036_854_775_808)),
        (64, 0, Err(OrderFault::UnknownName(0))),
        (0, 64, Err(OrderFault::UnknownName(0))),
    ] {
        let found = asked_places(rt.alloc(), At { atom, place });
        assert!(&rt; found == places, "{atom} {place}");
    }
    let order = three_in_a_row(rt.alloc())?;
    assert!(rt; order.has_conditions() && order.watched(0) == 2);
    assert!(rt; order.watched(1) == 0 && order.watched(64) == 0);
    Ok(())
}

#[test]
fn a_fault_of_an_order_is_told(rt: HostRuntime) -> Result<(), Fail> {
    for (fault, text) in [
        (
            OrderFault::Cycle(5),
            "the rules put interaction 5 below itself",
        ),
        (
            OrderFault::UnknownName(2),
            "rule 2 names no interaction of the plant",
        ),
        (OrderFault::Memory, "out of memory"),
    ] {
        let said = fault.to_string(rt.alloc())?;
        assert_eq!(rt; said.as_str(), text);
    }
    Ok(())
}
