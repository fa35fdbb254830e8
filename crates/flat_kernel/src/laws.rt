//! What holds of the group that the engine keeps.
ghost use Rattle.std.specs.Prelude.{◌≡◌};
ghost use Rattle.flat_kernel.specs.Engine.{group_in};
ghost use Rattle.flat_kernel.specs.declared.engine_group.EngineGroup.{EngineGroup};

/// Its output is the group's, while the process runs and once it has ended.
pub fn output_is_the_groups()
    ensures { (g : EngineGroup) → (group_in g).frame.out ≡ g.out }
{}
