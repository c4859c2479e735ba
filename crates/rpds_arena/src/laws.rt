//! Laws of the words that the contracts of arenas and interners speak in. A caller cites a law by calling it; the functions
//! have no code.
ghost use Rattle.std.specs.Prelude.{◌≡◌, ◌↔◌, ◌++◌, ◌∷◌, [], ℕ, List, Some, IsTrue, length, slice_get, take};
ghost use Rattle.rpds_arena.specs.Folded.{folded};
ghost use Rattle.rpds_arena.specs.Interned.{place_of};

/// What was found in an arena is found alike in each later one, and an item that was put in is found.
pub fn get_is_lawful<T>()
    ensures later { (items more : List T) → (i : ℕ) → (item : T) → slice_get items i ≡ Some item
        → slice_get (items ++ more) i ≡ Some item }
    ensures put { (items : List T) → (item : T) → slice_get (items ++ item ∷ []) (length items) ≡ Some item }
{}

/// The fold of a later arena begins with that of the older one. It has something for each item, and what it has for the
/// newest is made of what the older ones came to.
pub fn fold_is_lawful<T, R>()
    ensures later { (f : List R → T → R) → (items more : List T)
        → take (length items) (folded f (items ++ more)) ≡ folded f items }
    ensures size { (f : List R → T → R) → (items : List T) → length (folded f items) ≡ length items }
    ensures newest { (f : List R → T → R) → (items : List T) → (item : T)
        → folded f (items ++ item ∷ []) ≡ folded f items ++ f (folded f items) item ∷ [] }
{}

/// The id of a value is the same in each later interner. The ids of two values are equal exactly where the values are.
pub fn intern_is_lawful<T: Eq>()
    ensures later { (items more : List T) → (x : T) → (i : ℕ) → place_of T.eq x items ≡ Some i
        → place_of T.eq x (items ++ more) ≡ Some i }
    ensures equal { (items : List T) → (x y : T) → (i : ℕ) → place_of T.eq x items ≡ Some i
        → (place_of T.eq y items ≡ Some i) ↔ IsTrue (T.eq y x) }
{}
