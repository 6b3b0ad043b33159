ghost use Rattle.std.specs.Prelude.{◌≡◌, Bool, List, false};
ghost use Rattle.std.specs.List.{Contains};
ghost use Rattle.board_base.specs.Rights.{Rights};
ghost use Rattle.past_account.specs.Closed.{IsClosed};
ghost use Rattle.past_account.specs.Figures.{Sketch};
ghost use Rattle.past_account.specs.Homes.{may_be_array};
ghost use Rattle.past_account.specs.Refuted.{Refuted};
ghost use Rattle.sketch_list.specs.Listed.{Earlier, earlier};

/// The law of listed steps: a closed sketch that can't be the array is refuted if the sketch before each of its listed steps is. So a tree
/// over these steps refutes it.
pub fn listed_steps_are_enough()
    ensures { (o : List Bool) (held : Rights) (exact : List Bool) (T : Sketch) → IsClosed held exact T → may_be_array o T ≡ false → ((e : Earlier) → Contains (earlier o exact T) e → Refuted o held e.sketch) → Refuted o held T }
{}
