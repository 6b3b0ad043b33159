ghost use Rattle.std.specs.Prelude.{ℕ, ◌≡◌, ◌≤◌, ◌↔◌, IsTrue, List, Some};
ghost use Rattle.sketch_text.specs.Heads.{Head, head_line, head_text, is_head};
ghost use Rattle.sketch_text.specs.Marks.{Marks as AnyMarks, is_mark, mark_line, mark_text};
ghost use Rattle.sketch_text.specs.Nodes.{is_node, node_of, node_text};
ghost use Rattle.sketch_text.specs.declared.nodes.SketchNode.{SketchNode as AnyNode};

/// Each line has one text, if a sketch has at most 64 lines of prices: a text is read as the line that begins a sketch (`head`), as that
/// of a node (`node`), or as one of marks (`marks`), if and only if it is the one that is written of it, and what it says is in range. This
/// does nothing when it runs.
pub fn one_text_each()
    ensures head { (text : List ℕ) (h : Head) → head_line text ≡ Some h ↔ (IsTrue (is_head h) × (text ≡ head_text h)) }
    ensures node { (P : ℕ) (text : List ℕ) (n : AnyNode) → P ≤ 64 → node_of P text ≡ Some n ↔ (IsTrue (is_node P n) × (text ≡ node_text n)) }
    ensures marks { (P : ℕ) (text : List ℕ) (m : AnyMarks) → P ≤ 64 → mark_line P text ≡ Some m ↔ (IsTrue (is_mark P m) × (text ≡ mark_text m)) }
{}
