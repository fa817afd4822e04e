//! Constants that are shared: one more owner of a constant copies nothing.

ghost use Rattle.std.specs.Prelude.{◌≡◌, IfOk};

use go_base::Memory;
use go_constants::Const;
use std::alloc::Global;
use std::marker::Model;
use std::rc::Rc;

/// A constant that any number of owners share, so that what holds it is small. A clone is one more owner, so it takes constant
/// time and memory.
#[derive(Clone, Debug, Drop)]
pub struct SharedConst {
    constant: Rc<Const>,
}

impl Model for SharedConst {
    ghost use Rattle.go_constants.specs.declared.values.Const.{Const};
    ghost use Rattle.std.specs.Rc.{rc_value};

    ghost Value = { Const };

    ghost view = { λ c. rc_value c.constant };
}

impl SharedConst {
    /// The first owner of a constant.
    ///
    /// # Errors
    ///
    /// Want of memory.
    pub fn of(alloc: Global, constant: Const) -> Result<SharedConst, Memory>
        ensures { IfOk result (λ c. c ≡ constant) }
    {
        let constant = Rc::new(alloc, constant)?;
        Ok(SharedConst { constant })
    }

    /// The constant.
    pub fn get(&self) -> &Const
        ensures { result.now ≡ self.now }
    {
        self.constant.as_ref()
    }

    /// One more owner of the constant.
    ///
    /// # Errors
    ///
    /// Want of memory.
    pub fn shared(&self) -> Result<SharedConst, Memory>
        ensures { IfOk result (λ c. c ≡ self.now) }
    {
        Ok(self.clone()?)
    }
}
