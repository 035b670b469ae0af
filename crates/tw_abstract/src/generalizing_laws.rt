//! Laws of generalization, without code.
ghost use Rattle.tw_abstract.specs.OrderLaws.{EachFollowsItsNeeds, StuckHasNoOrder};
ghost use Rattle.tw_abstract.specs.Reordered.{AnotherOrderRenames};
ghost use Rattle.tw_abstract.specs.GeneralizingLaws.{GeneralizingIsFilling, ContextIsGeneralized};

/// What is generalized is filled with the answer of the store.
pub fn generalizing_is_filling()
    ensures { GeneralizingIsFilling }
{}

/// So are the types of the context.
pub fn context_is_generalized()
    ensures { ContextIsGeneralized }
{}

/// What is generalized in another order is renamed.
pub fn another_order_renames()
    ensures { AnotherOrderRenames }
{}

/// In an order of quantifiers each comes after what it needs.
pub fn each_follows_its_needs()
    ensures { EachFollowsItsNeeds }
{}

/// Where there is none, no list respects what is needed.
pub fn stuck_has_no_order()
    ensures { StuckHasNoOrder }
{}
