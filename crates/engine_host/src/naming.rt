//! Which host it is.
use front_word::WordNaming;
use std::marker::Brand;
use std::sync::ledger::Ledger;

/// Names one host: its word, its ledger, its plant, the plant's view where the host opened, the digest of the plant's text, whether the device
/// keeps the disk model, and how many seats there are.
pub trait Naming: WordNaming + Ledger {
    ghost use Rattle.std.specs.Prelude.{ℕ, Bool, List};
    ghost use Rattle.plant_model.specs.Plant.{PlantDefinition};
    ghost use Rattle.plant_core.specs.View.{View};

    ghost plant: { PlantDefinition };

    ghost view: { View };

    ghost digest: { List ℕ };

    ghost keeps: { Bool };

    ghost seats: { ℕ };
}

impl Naming for Brand {
    ghost use Rattle.std.specs.Prelude.{false, []};
    ghost use Rattle.engine_host.specs.Views.{no_plant, no_view};

    ghost plant = { no_plant };

    ghost view = { no_view };

    ghost digest = { [] };

    ghost keeps = { false };

    ghost seats = { 0 };
}
