//! What holds of all cells. The calls do nothing: what they ensure are the laws.
ghost use Rattle.std.specs.Prelude.{◌≡◌, ◌∷◌, List, ℕ};
ghost use Rattle.std.specs.Cmp.Lexicographic.{slice_cmp};
ghost use Rattle.std.specs.Ordering.{nat_cmp};
ghost use Rattle.dv_value.specs.declared.id.Id.{Id as AnId};
ghost use Rattle.dv_store.specs.declared.keys.RowKey.{RowKey as ARowKey};
ghost use Rattle.dv_store.specs.declared.keys.GrantKey.{GrantKey as AGrantKey};
ghost use Rattle.dv_store.specs.declared.keys.DirtyKey.{DirtyKey as ADirtyKey};
ghost use Rattle.dv_store.specs.Keys.{dirty_cmp, grant_cmp, row_cmp};
ghost use Rattle.dv_cells.specs.Bytes.{dirty_bytes, grant_bytes, id_bytes, pair_bytes, row_bytes};
ghost use Rattle.dv_cells.specs.Bytes.{FitsDirty, FitsGrant, FitsId, FitsPair, FitsRow};
ghost use Rattle.dv_cells.specs.Items.{IsCellOf};
ghost use Rattle.dv_cells.specs.declared.item.Item.{Item as AnItem};
ghost use Rattle.dv_cells.specs.Order.{id_cmp, pair_cmp};

use dv_value::no_spelling_begins_another;

/// No two items have the same cell. So an item that was encoded is decoded as itself.
pub fn an_item_has_a_cell_of_its_own()
    ensures { (sheet : ℕ) (key value : List ℕ) (a b : AnItem)
        → IsCellOf sheet key value a → IsCellOf sheet key value b → a ≡ b }
{
    no_spelling_begins_another();
}

/// The keys of a sheet in byte order are what they stand for in its order: ids by number, pairs of
/// ids by the first and then the second, rows, grants and rollups as the store has them.
pub fn keys_are_in_order()
    ensures ids { (a b : AnId) → FitsId a → FitsId b
        → slice_cmp nat_cmp (id_bytes a) (id_bytes b) ≡ id_cmp a b }
    ensures pairs { (a b : AnId × AnId) → FitsPair a → FitsPair b
        → slice_cmp nat_cmp (pair_bytes a) (pair_bytes b) ≡ pair_cmp a b }
    ensures rows { (a b : ARowKey) → FitsRow a → FitsRow b
        → slice_cmp nat_cmp (row_bytes a) (row_bytes b) ≡ row_cmp a b }
    ensures grants { (a b : AGrantKey) → FitsGrant a → FitsGrant b
        → slice_cmp nat_cmp (grant_bytes a) (grant_bytes b) ≡ grant_cmp a b }
    ensures rollups { (a b : ADirtyKey) → FitsDirty a → FitsDirty b
        → slice_cmp nat_cmp (dirty_bytes a) (dirty_bytes b) ≡ dirty_cmp a b }
{}
