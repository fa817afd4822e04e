//! What is handed over.

use go_types::TypeId;
use std::marker::Model;

/// A parameter of the new function. Numbers are the template's.
#[derive(Clone, Copy, Debug, PartialEq, Eq)]
pub enum Param {
    /// A local that is declared outside the window.
    Free {
        /// The number of the local in its function.
        local: u32,
        ty: TypeId,
    },
    /// A constant of the window.
    Hole {
        /// The number of its node in its function: nodes are numbered from 0, each before those within it and otherwise in order of
        /// place.
        node: u32,
        ty: TypeId,
    },
}

/// A result of the new function. Numbers are the template's.
#[derive(Clone, Copy, Debug, PartialEq, Eq)]
pub enum PlanResult {
    /// A local that is declared outside the window, which assigns it.
    Assigned {
        /// The number of the local in its function.
        local: u32,
        ty: TypeId,
    },
    /// A variable that the window declares.
    Declared {
        /// The number of the local in its function.
        local: u32,
        ty: TypeId,
    },
}

/// Parameters in order.
#[derive(Clone, Debug, Drop)]
pub struct Params {
    items: Vec<Param>,
}

impl Model for Params {
    ghost use Rattle.std.specs.Prelude.{List};
    ghost use Rattle.param_choose.specs.declared.plan.Param.{Param};

    ghost Value = { List Param };

    ghost view = { λ p. p.items.items };
}

impl Params {
    ghost use Rattle.std.specs.Prelude.{◌≡◌};

    /// The parameters of a `Vec`, which is kept.
    pub fn of(items: Vec<Param>) -> Params
        ensures { result ≡ items.items }
    {
        Params { items }
    }

    /// All the parameters.
    pub fn as_slice(&self) -> &[Param]
        ensures { result.now ≡ self.now }
    {
        self.items.as_slice()
    }
}

/// Results in order.
#[derive(Clone, Debug, Drop)]
pub struct Results {
    items: Vec<PlanResult>,
}

impl Model for Results {
    ghost use Rattle.std.specs.Prelude.{List};
    ghost use Rattle.param_choose.specs.declared.plan.PlanResult.{PlanResult};

    ghost Value = { List PlanResult };

    ghost view = { λ r. r.items.items };
}

impl Results {
    ghost use Rattle.std.specs.Prelude.{◌≡◌};

    /// The results of a `Vec`, which is kept.
    pub fn of(items: Vec<PlanResult>) -> Results
        ensures { result ≡ items.items }
    {
        Results { items }
    }

    /// All the results.
    pub fn as_slice(&self) -> &[PlanResult]
        ensures { result.now ≡ self.now }
    {
        self.items.as_slice()
    }
}

/// The parameters and the results of the new function, in the order in which it has them.
#[derive(Clone, Debug, Drop)]
pub struct Plan {
    pub params: Params,
    pub results: Results,
}
