//! Laws of bags and of byte order. Each function says its law in its clauses, and does nothing.

ghost use Rattle.std.specs.Prelude.{◌≡◌, ◌↔◌, ◌++◌, ℕ, Bool, List, map};
ghost use Rattle.std.specs.List.{count_by};
ghost use Rattle.std.specs.List.Sorted.{IsPermutation, IsSorted};
ghost use Rattle.std.specs.Ordering.{nat_cmp};
ghost use Rattle.std.specs.Cmp.Lexicographic.{slice_cmp};
ghost use Rattle.plain_types.specs.Bags.{SameBag, Tells};
ghost use Rattle.plain_types.specs.ByteOrder.{in_byte_order};

/// One bag: every test is passed equally often.
pub fn same_bag_is_equal_counts<T>()
    ensures { (xs ys : List T) → SameBag xs ys ↔ ((test : T → Bool) → count_by test xs ≡ count_by test ys) }
{}

/// A list in another order is the same bag, and where equal values can be told, the same bag is a
/// list in another order.
pub fn permutation_is_same_bag<T>()
    ensures moved { (xs ys : List T) → IsPermutation xs ys → SameBag xs ys }
    ensures back { (same : T → T → Bool) (xs ys : List T) → Tells same → SameBag xs ys → IsPermutation xs ys }
{}

/// Which of two lists comes first does not matter to their bag.
pub fn order_does_not_matter<T>()
    ensures { (xs ys : List T) → SameBag (xs ++ ys) (ys ++ xs) }
{}

/// Equal bags joined to equal bags are equal.
pub fn joining_keeps_a_bag<T>()
    ensures { (xs ys us vs : List T) → SameBag xs ys → SameBag us vs → SameBag (xs ++ us) (ys ++ vs) }
{}

/// The images of equal bags are equal.
pub fn mapping_keeps_a_bag<T, U>()
    ensures { (f : T → U) (xs ys : List T) → SameBag xs ys → SameBag (map f xs) (map f ys) }
{}

/// A bag of texts has one list in byte order, which holds the bag and is sorted, and is the only
/// such list.
pub fn one_list_in_byte_order()
    ensures one { (xs ys : List (List ℕ)) → SameBag xs ys → in_byte_order xs ≡ in_byte_order ys }
    ensures same { (xs : List (List ℕ)) → SameBag (in_byte_order xs) xs }
    ensures sorted { (xs : List (List ℕ)) → IsSorted (slice_cmp nat_cmp) (in_byte_order xs) }
    ensures only { (xs ys : List (List ℕ)) → SameBag xs ys → IsSorted (slice_cmp nat_cmp) ys → ys ≡ in_byte_order xs }
{}
