//! The laws of campaigns, as the contracts of functions that do nothing.
ghost use Rattle.std.specs.Prelude.{◌≡◌, ◌<◌, ◌↔◌, ℕ, Bool, false, List, ◌∷◌, ◌++◌, length, take, All, []};
ghost use Rattle.mc_tree.specs.Tree.{JoinUp, round_one};
ghost use Rattle.mc_tree.specs.Tree as tree;
ghost use Rattle.mc_campaign.specs.Page.{Chain, last_campaign, state_past};
ghost use Rattle.mc_campaign.specs.Rows.{IsRest, after_key, State, ShownRow, moved_to};
ghost use Rattle.mc_campaign.specs.Campaigns.{IsMember, Precedes};
ghost use Rattle.mc_boot.specs.Plan.{PowerOn};
ghost use Rattle.mc_campaign.specs.Rounds.{IsPathOf};
ghost use Rattle.mc_explore.specs.Rounds.{tree_of};

/// The campaigns that can occur are the paths of the tree of two rounds: each of at most so many cuts is that of a path of at
/// most so many steps, and each such path is that of such a campaign. The order of campaigns is that of their paths.
/// Promised: campaigns are the paths of the tree of two rounds (`paths`, `all`, `order`).
pub fn campaigns_are_paths()
    ensures paths { (x : PowerOn) (confirms : Bool) (bound : ℕ) (c : List (ℕ × ℕ))
        → IsMember x confirms bound c ↔ ((path : List ℕ) × IsPathOf x confirms bound path c) }
    ensures all { (x : PowerOn) (confirms : Bool) (bound : ℕ) (path : List ℕ)
        → tree.IsMember (tree_of confirms) (round_one x) bound path
        → (c : List (ℕ × ℕ)) × IsPathOf x confirms bound path c }
    ensures order { (x : PowerOn) (confirms : Bool) (bound : ℕ) (path other : List ℕ)
        (c d : List (ℕ × ℕ)) → IsPathOf x confirms bound path c → IsPathOf x confirms bound other d
        → Precedes c d ↔ tree.Precedes path other }
{}

/// Past each position there is one ascending list of rows of campaigns, and no other. After its first row the others are to
/// come.
/// Promised: one list of campaigns (`some`, `only`, `tail`, `order`).
pub fn one_list_of_campaigns()
    ensures some { (state : State) → (rows : List ShownRow) × IsRest state rows }
    ensures only { (state : State) (xs ys : List ShownRow) → IsRest state xs → IsRest state ys → xs
        ≡ ys }
    ensures tail { (state : State) (row : ShownRow) (rows : List ShownRow)
        → IsRest state (row ∷ rows) → IsRest (moved_to state row.campaign) rows }
    ensures order { (state : State) (prefix between rest : List ShownRow) (first later : ShownRow)
        → IsRest state (prefix ++ first ∷ (between ++ later ∷ rest))
        → Precedes first.campaign later.campaign }
{}

/// Pages of campaigns join up: the rows of pages that are continued from their cursors are a prefix of the rows to come where
/// the first one began, and all of them where the last one says `end`.
/// Promised: pages of campaigns join up (`joined`, `resumed`).
pub fn campaign_pages_join_up()
    ensures joined { (limits : List ℕ) (state : State) (whole rows : List ShownRow) (ended : Bool)
        → All (λ n. 0 < n) limits → IsRest state whole
        → Chain state limits ended rows → JoinUp whole rows ended }
    // After a full page an explorer is where one begins that goes on from its cursor.
    ensures resumed { (state : State) (rows : List ShownRow) (limit : ℕ) → state.failed ≡ false
        → 0 < limit → length (take limit rows) ≡ limit → state_past state limit rows
        ≡ after_key state.start state.choice state.bound
        (last_campaign [] (take limit rows)) }
{}
