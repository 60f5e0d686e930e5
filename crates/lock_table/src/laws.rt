//! The table and the lists of grants say the same.

ghost use Rattle.std.specs.Prelude.{◌≡◌, ℕ, ◌&&◌, List, IsTrue};
ghost use Rattle.lock_modes.specs.declared.ask.Ask.{Ask};
ghost use Rattle.lock_resources.specs.declared.request.Request.{Request};
ghost use Rattle.lock_resources.specs.declared.resource.Resource.{Resource};
ghost use Rattle.lock_table.specs.Asks.{join_asks, are_compatible, is_barred_by};
ghost use Rattle.lock_table.specs.Resources.{same_resource};
ghost use Rattle.lock_table.specs.Tables.{Table, IsGranted, IsReleased};
ghost use Rattle.lock_table.specs.Grants.{AllGrants, join_of, clashes_with, with_grant, without_owner, IsTableOf};

/// A mode goes with a join exactly where it goes with each part, and so with all that an owner was granted exactly where it goes with each grant.
#[tactic(auto, using(crate::proofs::Together::compatible_joined, crate::proofs::Together::compatible_turned, crate::proofs::Granted::join_bars))]
pub fn joins_bar_as_their_parts()
    ensures turned { (a b : Ask) → are_compatible a b ≡ are_compatible b a }
    ensures joined { (a b c : Ask) → are_compatible (join_asks a b) c ≡ (are_compatible a c && are_compatible b c) }
    ensures grants { (q : Request) (grants : List Request) → is_barred_by q.ask (join_of grants q.resource) ≡ clashes_with grants q }
{}

/// A table that holds the joins of the owners' grants does so after a grant and after a release.
#[tactic(auto, using(crate::proofs::Granted::granted_table, crate::proofs::Granted::released_table))]
pub fn tables_hold_the_joins_of_grants()
    ensures granted { (t u : Table) (all : AllGrants) (owner : ℕ) (q : Request) → IsTableOf t all → IsGranted t owner q u
        → IsTableOf u (with_grant all owner q) }
    ensures released { (t u : Table) (all : AllGrants) (owner : ℕ) → IsTableOf t all → IsReleased t owner u
        → IsTableOf u (without_owner all owner) }
{}

/// Two resources are the same exactly where they are equal.
#[tactic(auto, using(crate::proofs::Maps::exact_resources, crate::proofs::Listing::same_itself))]
pub fn same_resources_are_equal()
    ensures equal { (r q : Resource) → IsTrue (same_resource r q) → r ≡ q }
    ensures itself { (r : Resource) → IsTrue (same_resource r r) }
{}
