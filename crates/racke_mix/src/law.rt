//! What exists of mixes and their plans.
ghost use Rattle.racke_mix.specs.Laws.{MixesExist, RackePlansExist};

/// Of each network and seed there is a mix of any number of trees.
pub fn mixes_exist()
    ensures { MixesExist }
{}

/// Of each network and seed there is a plan of 1 to 16 trees for pairs that all have a path.
pub fn racke_plans_exist()
    ensures { RackePlansExist }
{}
