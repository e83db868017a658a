//! Laws of the order. Each is a function without code whose contract is the law.
ghost use Rattle.priority_filter.specs.Laws.{BelowIsWithin, BelowIsTransitive, PrioritiesBringNoDeadlock, BelowIsComputed, OverruledIsComputed, FaultIsComputed, MoreCountsMore, WhatCountsIsBelow, IsStrictInEveryState, SomethingIsNotOverruled};

/// What is below something is an interaction of the list, and so is what it is below.
pub fn below_is_within()
    ensures { BelowIsWithin }
{}

/// What is below an interaction that is below a third is below the third.
pub fn below_is_transitive()
    ensures { BelowIsTransitive }
{}

/// If something is possible, some possible interaction has no possible one above it.
pub fn priorities_bring_no_deadlock()
    ensures { PrioritiesBringNoDeadlock }
{}

/// The computed order is the order.
pub fn below_is_computed()
    ensures { BelowIsComputed }
{}

/// What the computed order overrules is what something that passes is above.
pub fn overruled_is_computed()
    ensures { OverruledIsComputed }
{}

/// The computed fault is exactly the one that refuses the rules.
pub fn fault_is_computed()
    ensures { FaultIsComputed }
{}

/// What is below something is so still if more conditions hold.
pub fn more_counts_more()
    ensures { MoreCountsMore }
{}

/// What is below something by the rules that count is below it by all rules.
pub fn what_counts_is_below()
    ensures { WhatCountsIsBelow }
{}

/// An order that is not refused is strict in every state: rules are refused as if all of them counted.
pub fn a_written_order_is_strict_in_every_state()
    ensures { IsStrictInEveryState }
{}

/// If rules without fault leave something possible, something possible is not overruled, whichever conditions hold.
pub fn something_is_not_overruled()
    ensures { SomethingIsNotOverruled }
{}
