//! What a key of a shelf is.
ghost use Rattle.std.specs.Prelude.{◌≡◌};
ghost use Rattle.std.specs.declared.cmp.Ordering.TheVariants.{Equal};
ghost use Rattle.std.proofs.lemmas.Map.Lookups.{exact_unsigned};

/// A key: it is copied, and its order tells all keys apart, so that two keys that compare as equal are one key.
///
/// A derived order over numbers, and over enums and structs of them, is such an order.
pub trait Key: Ord + Copy {
    ghost exact: { (x y : Self) → Self.cmp x y ≡ Equal → x ≡ y };
}

impl Key for u64 {
    ghost exact = { exact_unsigned };
}
