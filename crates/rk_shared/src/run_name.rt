use std::marker::Brand;

/// The name of a run, which contracts alone read: its scenario, and which opening it is. The caller of a
/// function over a name picks them.
pub trait RunName {
    ghost use Rattle.atomic_table.specs.Seated.{TableId};
    ghost use Rattle.rk_model.specs.declared.scenario.Scenario.{Scenario};

    ghost scenario: { Scenario };

    ghost opening: { TableId };
}

impl RunName for Brand {
    ghost use Rattle.std.specs.Prelude.{[]};
    ghost use Rattle.rk_journal.specs.JournalViews.{no_table};

    ghost scenario = { record { clusters = []; horizon = 0; limit = 0; bodies = []; inits = [] } };

    ghost opening = { no_table };
}
