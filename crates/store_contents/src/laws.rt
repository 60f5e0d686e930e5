// Laws of what two files stand for, each the contract of a function with nothing to do.
ghost use Rattle.std.specs.Prelude.{◌≡◌, ℕ, ◌+◌, true, List, [], Some, None, Ok};
ghost use Rattle.tree_model.specs.Tree.{Tree, empty_tree};
ghost use Rattle.journal.specs.Batches.{with_commits};
ghost use Rattle.journal.specs.Groups.{with_commit};
ghost use Rattle.journal.specs.Journals.{read};
ghost use Rattle.journal.specs.declared.group.Groups.{Groups};
ghost use Rattle.store_contents.specs.Contents.{FilesHold, HoldTheSame, HoldsCommits, HoldsImages, goes_on_from, with_more_commits, with_one_commit};
ghost use Rattle.store_contents.specs.Laws.{BesideImages, BesideMadeImages, HasNoGroups, OfGroups, OfImages, StandForMore};
ghost use Rattle.store_contents.specs.StoredTrees.{StandFor};

/// Files that stand for a tree stand for no other, and with one number.
#[tactic(auto, using(crate::proofs::TreeLaws::one_tree, crate::proofs::TreeLaws::one_number))]
pub fn files_stand_for_one_tree()
    ensures tree { (journal pages : List ℕ) (t u : Tree) (m n : ℕ) → StandFor journal pages t m → StandFor journal pages u n → u ≡ t }
    ensures number { (journal pages : List ℕ) (t u : Tree) (m n : ℕ) → StandFor journal pages t m → StandFor journal pages u n → n ≡ m }
{}

/// Without images files break no rule exactly where the pages hold a map and a number, the journal holds commits that go on from this number,
/// and no record of the map after them breaks a rule of the tree.
pub fn files_that_break_no_rule_hold_pages_and_commits()
    ensures held { OfGroups (λ journal pages groups contents.
        groups.images ≡ None → FilesHold journal pages contents
        → HoldsCommits pages groups contents) }
    ensures stood_for { OfGroups (λ journal pages groups contents.
        HoldsCommits pages groups contents → FilesHold journal pages contents) }
{}

/// With images they break no rule exactly where the pages with the images put in hold a map with the number of the images,
/// and no record of it breaks a rule of the tree; the commits before the images count for nothing.
pub fn files_with_images_hold_their_pages()
    ensures held { OfImages (λ journal pages images contents.
        FilesHold journal pages contents → HoldsImages pages images contents) }
    ensures stood_for { OfImages (λ journal pages images contents.
        HoldsImages pages images contents → FilesHold journal pages contents) }
{}

/// Open images hide what stands in their places: beside a page file that has the other pages, the files stand for the same.
pub fn images_hide_what_stands_in_their_places()
    ensures { (journal file pages : List ℕ)
        → BesideImages journal file pages (λ images contents. FilesHold journal pages contents) }
{}

/// Once those below the count are the pages of their numbers, these pages stand for the same by themselves, beside a journal without groups.
pub fn pages_made_of_images_stand_for_the_same()
    ensures { (journal cleared file made : List ℕ)
        → BesideMadeImages journal file made (λ contents.
        HasNoGroups cleared → FilesHold cleared made contents) }
{}

/// A commit more makes of what two files stood for the map with its changes, and its own number.
#[tactic(auto, using(crate::proofs::CommitLaws::one_more, crate::proofs::CommitLaws::same_groups))]
pub fn a_commit_more_is_stood_for()
    ensures more { StandForMore with_commit
        (λ group contents. group.number ≡ contents.number + 1) with_one_commit }

    // Journals that are read as the same groups stand for the same.
    ensures same { (journal other pages : List ℕ) (groups : Groups) → read journal ≡ Ok groups → read other ≡ Ok groups
        → HoldTheSame other pages journal pages }
{}

/// Many commits more make of it the map after the last of them, whatever stood between.
#[tactic(auto, using(crate::proofs::CommitLaws::many_more))]
pub fn commits_more_are_stood_for()
    ensures { StandForMore with_commits
        (λ more contents. goes_on_from (Some contents.number) more ≡ true) with_more_commits }
{}

/// Two empty files stand for the tree without documents, and no commit.
#[tactic(auto, using(crate::proofs::ContentsRows::empty_files))]
pub fn empty_files_stand_for_the_empty_tree()
    ensures { StandFor [] [] empty_tree 0 }
{}
