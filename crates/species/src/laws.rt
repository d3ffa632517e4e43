//! Laws of lists of distinct texts, over their definitions alone.

ghost use Rattle.std.specs.Prelude.{◌≡◌, ◌<◌, ℕ, Bool, true, false, List, Some, None, length, map, nat_lt, position};
ghost use Rattle.std.specs.List.{list_any, position_or_len};
ghost use Rattle.std.specs.Str.{bytes_eq};
ghost use Rattle.species.specs.Texts.{is_in, index_of};

/// A text is in a list exactly where its number there is below the count.
pub fn numbers_are_below()
    ensures { (texts : List (List ℕ)) (text : List ℕ) → is_in texts text ≡ nat_lt (index_of texts text) (length texts) }
{}

/// A search for a text finds its number, which is below the count, exactly where it is in the list.
pub fn searches_find_numbers()
    ensures found { (texts : List (List ℕ)) (text : List ℕ) (i : ℕ) → Some i ≡ position (bytes_eq text) texts → (i ≡ index_of texts text) × (is_in texts text ≡ true) }
    ensures missing { (texts : List (List ℕ)) (text : List ℕ) → None ≡ position (bytes_eq text) texts → is_in texts text ≡ false }
    ensures within { (texts : List (List ℕ)) (text : List ℕ) → is_in texts text ≡ true → index_of texts text < length texts }
{}

/// A test finds an item exactly where the item's place is below the count.
pub fn places_are_below<X>()
    ensures { (test : X → Bool) (items : List X) → list_any test items ≡ nat_lt (position_or_len test items) (length items) }
{}

/// A test of views finds what the same test finds in the list under them.
pub fn views_are_found<X, Y>()
    ensures place { (view : X → Y) (test : Y → Bool) (items : List X) → position test (map view items) ≡ position (λ x. test (view x)) items }
    ensures any { (view : X → Y) (test : Y → Bool) (items : List X) → list_any test (map view items) ≡ list_any (λ x. test (view x)) items }
{}
