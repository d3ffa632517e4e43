//! Laws of rows, over their definitions alone.

ghost use Rattle.std.specs.Prelude.{◌≡◌, ◌+◌, ◌<◌, ◌++◌, ◌∷◌, [], ℕ, List};
ghost use Rattle.surf_kinds.specs.declared.site.SpeciesId.{SpeciesId};
ghost use Rattle.surface_rows.specs.Rows.{row_line, rows_text};

/// The text of rows is that of the rows before the last one and the line of the last, and each row's line follows the
/// text of those before it.
pub fn rows_follow_each_other()
    ensures none { (names : List (List ℕ)) (cols : ℕ) (cells : List SpeciesId) → [] ≡ rows_text names 0 cols cells }
    ensures more { (names : List (List ℕ)) (rows cols : ℕ) (cells : List SpeciesId)
        → rows_text names rows cols cells ++ (row_line names cols cells rows ++ 10 ∷ []) ≡ rows_text names (rows + 1) cols cells }
    ensures within { (names : List (List ℕ)) (row rows cols : ℕ) (cells : List SpeciesId) → row < rows
        → (rest : List ℕ) × ((rows_text names row cols cells ++ (row_line names cols cells row ++ 10 ∷ [])) ++ rest ≡ rows_text names rows cols cells) }
{}
