// What the commands of one document come to, by the calls of the plain tree.
ghost use Rattle.std.specs.Prelude.{ℕ};
ghost use Rattle.tree_model.specs.Names.{Name};
ghost use Rattle.tree_model.specs.Tree.{Tree};
ghost use Rattle.tree_model.specs.declared.fragment.Fragment.{Fragment};
ghost use Rattle.path_model.specs.declared.path.XPath.{XPath};
ghost use Rattle.xtc.specs.DocumentsOnTree.{GetOnTree, PutOnTree, QueryOnTree, get_done, put_done, query_done};

/// What `put` asks does what `create` does on the plain tree, by one commit: it is refused as that is, and shows its label.
pub fn put_is_create()
    ensures { (t : Tree) (n limit : ℕ) (name : Name) (element : Fragment)
        → PutOnTree t n limit name element (put_done t n limit name element) }
{}

/// What `get` asks answers what `doc` and `dump` do on the plain tree, and changes nothing.
pub fn get_is_dump()
    ensures { (t : Tree) (n limit : ℕ) (name : Name)
        → GetOnTree t n limit name (get_done t n limit name) }
{}

/// What `query` asks answers what `doc` answers and the path finds on the plain tree, and changes nothing. Nobody else is live, so each call is answered at once.
pub fn query_is_find()
    ensures { (t : Tree) (n limit : ℕ) (name : Name) (path : XPath)
        → QueryOnTree t n limit name path (query_done t n limit name path) }
{}
