// Laws over the definitions alone, each the contract of a function with nothing to do.
ghost use Rattle.std.specs.Prelude.{◌≡◌, ◌≢◌, ◌<◌, ◌+◌, ◌^◌, ◌++◌, length, ℕ, List, Option, IsTrue, None, Some};
ghost use Rattle.std.specs.List.{AllByRecursion};
ghost use Rattle.tree_model.specs.declared.change.Change.{Change};
ghost use Rattle.node_records.specs.Changes.{IsWritableChange};
ghost use Rattle.node_records.specs.Pending.{FollowOn};
ghost use Rattle.node_records.specs.declared.pending.Pending.{Pending};
ghost use Rattle.outside_traits.specs.Moments.{LeavesOnly};
ghost use Rattle.tree_model.specs.Changes.{keys_rise};
ghost use Rattle.journal.specs.Batches.{AfterAppends, DuringAppends, HasAddedSince, HasFirst, MayFollow};
ghost use Rattle.journal.specs.Bodies.{ChangesAreReadAgain, changes_in};
ghost use Rattle.journal.specs.Groups.{AreCommits, is_next};
ghost use Rattle.journal.specs.Journals.{CommitsAreReadAgain};
ghost use Rattle.journal.specs.PageImages.{ImagesAreReadAgain, IsPageImage, numbers_rise};

/// Changes with rising keys, written one behind the other, are a commit's body, and are read from it again.
#[tactic(auto, using(crate::proofs::BodyLaws::body_again, crate::proofs::BodyLaws::body_rises))]
pub fn a_body_is_read_again()
    ensures again { (changes : List Change) → AllByRecursion IsWritableChange changes → IsTrue (keys_rise changes)
        → ChangesAreReadAgain changes }
    ensures rising { (body : List ℕ) (changes : List Change) → changes_in body ≡ Some changes → IsTrue (keys_rise changes) }
{}

/// Commits with numbers that rise by one are read from the bytes that the format gives them, whatever stands behind the closed gate.
#[tactic(auto, using(crate::proofs::ReadLaws::commits_again))]
pub fn commits_are_read_again()
    ensures { (commits : List (ℕ × List ℕ)) (gate : ℕ) (tail : List ℕ) → AreCommits None commits → gate ≢ 1
        → CommitsAreReadAgain commits gate tail }
{}

/// Commits that wait, with numbers that go on from this one, may be appended where the next number is the one behind it.
#[tactic(auto, using(crate::proofs::PendingLaws::are_commits))]
pub fn pending_commits_may_be_appended()
    ensures { (last : Option ℕ) (after : ℕ) (pending : List Pending) → IsTrue (is_next last (after + 1)) → FollowOn after pending
        → MayFollow last pending }
{}

/// Appends one after another. Within one a crash leaves all commits before it at least, and at each moment since the first one some first
/// part of them all.
#[tactic(auto, using(crate::proofs::BatchRuns::call_leaves, crate::proofs::BatchRuns::all_leave, crate::proofs::BatchRuns::added_since))]
pub fn appends_follow_one_another()
    ensures within { DuringAppends (λ groups commits more old mid new.
        LeavesOnly (HasFirst groups (commits ++ more) (length commits)) mid new) }
    ensures stopped { DuringAppends (λ groups commits more old mid new.
        LeavesOnly (HasFirst groups (commits ++ more) 0) old new) }
    ensures added { AfterAppends (λ groups commits more old new.
        HasAddedSince groups (commits ++ more) old new) }
{}

/// Images of whole pages with rising numbers, written one behind the other behind their count, are a body of images, and are read again.
#[tactic(auto, using(crate::proofs::ImageLaws::body_again))]
pub fn images_are_read_again()
    ensures { (images : List (ℕ × List ℕ)) → AllByRecursion IsPageImage images → IsTrue (numbers_rise images) → length images < 2 ^ 32
        → ImagesAreReadAgain images }
{}
