ghost use Rattle.std.specs.Prelude.{◌≡◌, IsTrue, List};
ghost use Rattle.std.specs.List.{Contains};
ghost use Rattle.board_base.specs.declared.moves.Move.{Move};
ghost use Rattle.capture_prices.specs.Prices.{PriceList, are_prices};
ghost use Rattle.query_base.specs.Asked.{Asked};
ghost use Rattle.cage_rules.specs.Reach.{LeadsTo};
ghost use Rattle.sketch_node.specs.Figures.{sketch_of};
ghost use Rattle.sketch_node.specs.Nodes.{HasTree};
ghost use Rattle.sketch_text.specs.Trees.{Line};
ghost use Rattle.sketch_proof.specs.Proofs.{Proves, Setting};

/// The law of proofs of sketches: if some lines, with prices that are prices, prove that no game comes to a query's sketch, a tree refutes
/// it (`tree`). So no game of any length leads to the query at these odds, if the rights are those that it holds (`queries`).
pub fn sketch_proofs_hold()
    ensures tree { (g : Setting) (q : Asked) (lines : List Line) → ((p : PriceList) → Contains g.prices p → IsTrue (are_prices p)) → Proves g (sketch_of q.board) lines → HasTree g.odds g.held g.exact (sketch_of q.board) }
    ensures queries { (g : Setting) (q : Asked) (lines : List Line) → ((p : PriceList) → Contains g.prices p → IsTrue (are_prices p)) → g.held ≡ q.held → Proves g (sketch_of q.board) lines → (m : List Move) → LeadsTo g.odds m q → ⊥ }
{}
