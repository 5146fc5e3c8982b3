//! Shared items of scripts, whose header lists hold no more values than a header map takes.
ghost use Rattle.std.specs.Prelude.{◌≡◌, [], IfOk};
ghost use Rattle.life_script.specs.Valid.{BodyFits, PollsFit};

use life_core::{Got, List};
use life_script::{BodyItems, PollItems};
use std::alloc::Global;
use std::marker::Model;
use std::rc::Rc;

/// The items of a body. None of its lists of trailers holds over 1,000 values.
#[derive(Drop)]
pub struct FittingBody {
    items: Rc<BodyItems>,
}

impl Model for FittingBody {
    ghost use Rattle.std.specs.Prelude.{List};
    ghost use Rattle.life_script.specs.Valid.{BodyFits};
    ghost use Rattle.life_script.specs.declared.scenario.BodyItem.{BodyItem};

    ghost Value = { List BodyItem };

    ghost view = { λ b. b.items.value.items };

    ghost invariant = { λ b. BodyFits b.items.value.items };
}

impl FittingBody {
    /// These items, which it shares. It takes no memory.
    pub fn new(items: Rc<BodyItems>) -> FittingBody
        requires { BodyFits items.value.items }
        ensures { result ≡ items.value.items }
    {
        FittingBody { items }
    }

    /// The items.
    pub fn as_list(&self) -> &BodyItems
        ensures items { result.now.items ≡ self.now }
        ensures fits { BodyFits self.now }
    {
        &self.items
    }
}

/// The items of polls. No header list of the responses among them holds over 1,000 values.
#[derive(Drop)]
pub struct FittingPolls {
    items: Rc<PollItems>,
}

impl Model for FittingPolls {
    ghost use Rattle.std.specs.Prelude.{List};
    ghost use Rattle.life_script.specs.Valid.{PollsFit};
    ghost use Rattle.life_script.specs.declared.scenario.PollItem.{PollItem};

    ghost Value = { List PollItem };

    ghost view = { λ p. p.items.value.items };

    ghost invariant = { λ p. PollsFit p.items.value.items };
}

impl FittingPolls {
    /// These items, which it shares. It takes no memory.
    pub fn new(items: Rc<PollItems>) -> FittingPolls
        requires { PollsFit items.value.items }
        ensures { result ≡ items.value.items }
    {
        FittingPolls { items }
    }

    /// No items.
    pub fn none(alloc: Global) -> Got<FittingPolls>
        ensures { IfOk result (λ polls. polls ≡ []) }
    {
        let items = Rc::new(alloc, List::new(alloc))?;
        Ok(FittingPolls { items })
    }

    /// The items.
    pub fn as_list(&self) -> &PollItems
        ensures items { result.now.items ≡ self.now }
        ensures fits { PollsFit self.now }
    {
        &self.items
    }
}
