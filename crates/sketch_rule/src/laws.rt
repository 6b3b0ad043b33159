ghost use Rattle.std.specs.Prelude.{Bool, List};
ghost use Rattle.board_base.specs.Rights.{Rights};
ghost use Rattle.board_base.specs.declared.moves.Move.{Move};
ghost use Rattle.query_base.specs.Asked.{Asked};
ghost use Rattle.sketch_list.specs.Reach.{LeadsTo};
ghost use Rattle.sketch_list.specs.Refuted.{Refuted};
ghost use Rattle.sketch_list.specs.Figures.{Sketch, sketch_of};
ghost use Rattle.sketch_rule.specs.Trees.{Refutes, Tree};

/// The laws of trees. A sketch that a tree refutes is refuted (`sketches`), so no game comes to a moment that it fits. And no game, of any
/// length and at any odds, leads to a query whose sketch a tree refutes (`queries`).
pub fn trees_refute()
    ensures sketches { (tree : Tree) (o : List Bool) (held : Rights) (exact : List Bool) (S : Sketch) → Refutes tree o held exact S → Refuted o held S }
    ensures queries { (tree : Tree) (o : List Bool) (exact : List Bool) (q : Asked) → Refutes tree o q.held exact (sketch_of q.board) → (g : List Move) → LeadsTo o g q → ⊥ }
{}
