ghost use Rattle.std.specs.Prelude.{◌≡◌};
ghost use Rattle.brc_lang.specs.Grammar.{IsModule};
ghost use Rattle.brc_model.specs.Paths.{IsAcceptable};
ghost use Rattle.brc_model.specs.Tables.{AreTrueWhereReached};
ghost use Rattle.brc_check.specs.Tables.{IsTrueWhereReached, states_of};

use crate::table::Table;
use brc_lang::Module;
use brc_model::State;
use std::marker::Model;

/// An accepted module with the table that shows why. Only the checker makes one.
#[derive(Debug, Drop)]
pub struct Checked {
    module: Module,
    table: Table,
}

impl Model for Checked {
    ghost use Rattle.brc_lang.specs.Grammar.{IsModule};
    ghost use Rattle.brc_model.specs.Paths.{IsAcceptable};
    ghost use Rattle.brc_check.specs.Accepted.{Accepted};
    ghost use Rattle.brc_check.specs.Tables.{IsTrueWhereReached};

    ghost Value = { Accepted };

    ghost view = { λ c. record { «module» = c.module; table = c.table } };

    ghost invariant = { λ c. IsModule c.module × IsAcceptable c.module × IsTrueWhereReached c.module c.table };
}

impl Checked {
    /// Returns the module as an accepted one.
    pub(crate) fn new(accepted: Module, table: Table) -> Checked
        requires fits { IsModule accepted }
        requires acceptable { IsAcceptable accepted }
        requires truth { IsTrueWhereReached accepted table }
        ensures accepted { result.module ≡ accepted }
        ensures table { result.table ≡ table }
    {
        Checked {
            module: accepted,
            table,
        }
    }

    /// Returns the module.
    pub fn module(&self) -> &Module
        ensures value { result.now ≡ self.now.module }
        ensures fits { IsModule self.now.module }
        ensures accepted { IsAcceptable self.now.module }
    {
        &self.module
    }

    /// Returns the table that shows why the module was accepted.
    pub fn table(&self) -> &Table
        ensures value { result.now ≡ self.now.table }
        ensures truth { IsTrueWhereReached self.now.module result.now }
    {
        &self.table
    }

    /// States that the module is acceptable, and that the table gives each point that a path reaches the path's state.
    pub fn states_are_true(&self)
        ensures fits { IsModule self.now.module }
        ensures acceptable { IsAcceptable self.now.module }
        ensures truth { AreTrueWhereReached self.now.module (states_of self.now.module self.now.table) }
    {
        let _ = &self.table;
    }

    /// Returns the state of a point of a function, or `None` if no path reaches the point, or there is no such point.
    /// Functions and points count from 0. It takes no memory.
    pub fn entry(&self, function: usize, at: usize) -> Option<State>
        ensures { result ≡ states_of self.now.module self.now.table function at }
    {
        self.table.at(&self.module, function, at)
    }
}
