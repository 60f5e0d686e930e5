//! The laws of paths, each the contract of a function that does nothing.
ghost use Rattle.std.specs.Prelude.{◌≡◌, ◌∷◌, [], Bool, false, not, if◌then◌else◌, List, length};
ghost use Rattle.std.specs.List.{filter};
ghost use Rattle.dewey_labels.specs.Labels.{Label};
ghost use Rattle.tree_model.specs.Outcomes.{is_refused, not_found_err};
ghost use Rattle.tree_model.specs.Tree.{Tree, at, found};
ghost use Rattle.tree_model.specs.ValidTrees.{IsValidTree};
ghost use Rattle.tree_model.specs.declared.refusal.Refusal.TheVariants.{Dom};
ghost use Rattle.tree_model.specs.declared.reply.Reply.TheVariants.{Refused};
ghost use Rattle.path_model.specs.Axes.{on_axis, on_axes, parting, relates, share_document};
ghost use Rattle.path_model.specs.AxisPrograms.{shown_along};
ghost use Rattle.path_model.specs.Evaluation as evaluation;
ghost use Rattle.path_model.specs.Evaluation.{find_from, start};
ghost use Rattle.path_model.specs.Finds.{find, found_at};
ghost use Rattle.path_model.specs.Functions.{Context};
ghost use Rattle.path_model.specs.Meaning as meaning;
ghost use Rattle.path_model.specs.Meaning.{OfEachPath, begun, found_from, reached, value_in};
ghost use Rattle.path_model.specs.Paths.{Expr, Path, bare_step};
ghost use Rattle.path_model.specs.Positions.{Position};
ghost use Rattle.path_model.specs.Programs.{answer, at_node, looked};
ghost use Rattle.path_model.specs.Sets.{AllAt, At, OfTwoNodes, Rises};
ghost use Rattle.path_model.specs.declared.path.Axis.{Axis};
ghost use Rattle.path_model.specs.declared.path.NodeTest.{NodeTest};

/// What is looked at for an axis shows the positions that the axis relates, in its order; that for `/` the document, and that for a string-value this.
pub fn looks_show_what_axes_relate()
    ensures axis { (t : Tree) (axis : Axis) (test : NodeTest) (n : Position) → IsValidTree t → At t n
        → shown_along t axis test n ≡ on_axis t axis test n }
    ensures document { (t : Tree) (is_absolute : Bool) (n : Position) → IsValidTree t → At t n
        → answer t (start is_absolute n) ≡ begun t is_absolute n }
    ensures string_value { (t : Tree) (n : Position) → IsValidTree t → At t n → answer t (evaluation.string_value n) ≡ meaning.string_value t n }
{}

/// Ancestor, descendant, following, preceding and self part a document (XPath 1.0, section 2.2): from a node each node of its document
/// is on exactly one of them, and a node of another document on none.
#[tactic(auto, using(crate::proofs::PartLaws::axes_part))]
pub fn five_axes_part_a_document()
    ensures parts { OfTwoNodes (λ n m.
        length (filter (λ axis. relates axis n m) parting)
        ≡ (if share_document n m then 1 else 0)) }
{}

/// A step without predicates leads to each position that its axis relates to one of a set and its node test passes, whatever way the axis counts.
#[tactic(auto, using(crate::proofs::StepLaws::step_leads))]
pub fn steps_lead_to_what_their_axes_relate()
    ensures step { (t : Tree) (axis : Axis) (test : NodeTest) (ns : List Position) → IsValidTree t
        → reached t (bare_step axis test) ns ≡ on_axes t axis test ns }
{}

/// The program of an expression answers the value of the expression.
#[tactic(auto, using(crate::proofs::PathLaws::expression_value))]
pub fn expressions_are_evaluated_to_their_values()
    ensures value { (t : Tree) (e : Expr) (c : Context) → IsValidTree t → At t c.at → answer t (evaluation.value e c) ≡ value_in t e c }
{}

/// The program of a path answers the set that the path means from a position: positions of the tree, in document order and none twice.
pub fn paths_find_the_sets_that_they_mean()
    ensures set { OfEachPath (λ t is_absolute ss n. IsValidTree t → At t n
        → answer t (find_from is_absolute ss n) ≡ found_from t is_absolute ss n) }
    ensures in_order { OfEachPath (λ t is_absolute ss n.
        IsValidTree t → Rises (found_from t is_absolute ss n)) }
    ensures of_the_tree { OfEachPath (λ t is_absolute ss n.
        At t n → AllAt t (found_from t is_absolute ss n)) }
{}

/// The program of the call `find` answers that set from the node with a label, and is refused exactly where no node has it; then the node alone was looked for.
pub fn find_answers_a_set_or_not_found()
    ensures answers { (t : Tree) (l : Label) (p : Path) → IsValidTree t → answer t (find l p) ≡ found_at l p t }
    ensures refused_exactly { (t : Tree) (l : Label) (p : Path) → is_refused (answer t (find l p)) ≡ not (found (at l t.documents)) }
    ensures refused { (t : Tree) (l : Label) (p : Path) → found (at l t.documents) ≡ false → answer t (find l p) ≡ Refused (Dom not_found_err) }
    ensures looked { (t : Tree) (l : Label) (p : Path) → found (at l t.documents) ≡ false → looked t (find l p) ≡ at_node l ∷ [] }
{}
