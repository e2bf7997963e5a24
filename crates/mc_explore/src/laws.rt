//! What holds of the rows to come.
ghost use Rattle.std.specs.Prelude.{◌≡◌, ◌<◌, ℕ, Bool, false, List, [], ◌∷◌, ◌++◌, length, take, All};
ghost use Rattle.mc_tree.specs.Tree.{JoinUp, Precedes};
ghost use Rattle.mc_explore.specs.Page.{Chain, last_schedule, state_past};
ghost use Rattle.mc_explore.specs.Rows.{after_key, State, ShownRow, moved_to, IsRest};

/// Past each position there is one ascending list of rows, and no other. After its first row the others are to come. Its
/// order is that of the cuts, and not of how many they are.
/// Promised: one ascending list of rows, not by length (`some`, `only`, `tail`, `order`, `longer_first`).
pub fn one_list_of_rows()
    ensures some { (state : State) → (rows : List ShownRow) × IsRest state rows }
    ensures only { (state : State) (xs ys : List ShownRow) → IsRest state xs → IsRest state ys → xs
        ≡ ys }
    ensures tail { (state : State) (row : ShownRow) (rows : List ShownRow)
        → IsRest state (row ∷ rows) → IsRest (moved_to state row.schedule) rows }
    ensures order { (state : State) (prefix between rest : List ShownRow) (first later : ShownRow)
        → IsRest state (prefix ++ first ∷ (between ++ later ∷ rest))
        → Precedes first.schedule later.schedule }
    // So a list in which `1` stands before `0.17` is not the rows.
    ensures longer_first { (state : State) (prefix between rest : List ShownRow) (first later :
        ShownRow)
        → first.schedule ≡ 1 ∷ [] → later.schedule ≡ 0 ∷ 17 ∷ []
        → IsRest state (prefix ++ first ∷ (between ++ later ∷ rest)) → ⊥ }
{}

/// Pages join up: the rows of pages that are continued from their cursors are a prefix of the rows to come where the first one
/// began, and all of them where the last one says `end`.
/// Promised: pages join up (`joined`, `resumed`).
pub fn pages_join_up()
    ensures joined { (limits : List ℕ) (state : State) (whole rows : List ShownRow) (ended : Bool)
        → state.failed ≡ false → All (λ n. 0 < n) limits → IsRest state whole
        → Chain state limits ended rows → JoinUp whole rows ended }
    // After a full page an explorer is where one begins that goes on from its cursor.
    ensures resumed { (state : State) (rows : List ShownRow) (limit : ℕ) → state.failed ≡ false
        → 0 < limit → length (take limit rows) ≡ limit → state_past state limit rows
        ≡ after_key state.start state.bound (last_schedule [] (take limit rows)) }
{}
