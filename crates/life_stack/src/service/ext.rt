//! What the messages of the driven stack carry beside them.
ghost use Rattle.std.specs.Prelude.{refl};
ghost use Rattle.life_stack.specs.Service.Script.{IsDefaultExt, ext_id, ext_number, with_id, with_number};

use life_core::Slot;
use life_head::request_id::{Number, RequestId};

/// The extension of the driven stack's requests and responses.
#[derive(Drop)]
pub struct Ext {
    /// The number of the request in its scenario.
    pub number: Option<Number>,
    /// The request's id.
    pub id: Option<RequestId>,
}

impl Default for Ext {
    ghost is_default = { IsDefaultExt };

    fn default() -> Ext {
        Ext {
            number: None,
            id: None,
        }
    }
}

impl Slot<Number> for Ext {
    ghost holds = { ext_number };

    ghost after = { with_number };

    ghost set_gives = { λ _ _. refl };

    fn get(&self) -> Option<&Number> {
        self.number.as_ref()
    }

    fn set(&mut self, value: Number) {
        self.number = Some(value);
    }
}

impl Slot<RequestId> for Ext {
    ghost holds = { ext_id };

    ghost after = { with_id };

    ghost set_gives = { λ _ _. refl };

    fn get(&self) -> Option<&RequestId> {
        self.id.as_ref()
    }

    fn set(&mut self, value: RequestId) {
        self.id = Some(value);
    }
}
