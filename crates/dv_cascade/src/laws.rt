//! What is true of every closure, and of every world with sound links.
ghost use Rattle.std.specs.Prelude.{◌≡◌, Bool, IsSome, true};
ghost use Rattle.std.specs.FinMap as map;
ghost use Rattle.dv_schema.specs.declared.definition.Definition as definition;
ghost use Rattle.dv_store.specs.declared.keys.RowKey as key;
ghost use Rattle.dv_schema.specs.Sound.{IsSound};
ghost use Rattle.dv_store.specs.Shapes.{is_owned, shape_of};
ghost use Rattle.dv_store.specs.World.{World, empty};
ghost use Rattle.dv_cascade.specs.declared.cascading.Cascading as cascading;
ghost use Rattle.dv_cascade.specs.declared.cascading.Cascading.TheVariants.{Reparent};
ghost use Rattle.dv_cascade.specs.Circles.{AddsLinksOf, HasNoCircle, HasOneParent, IsNotUnder};
ghost use Rattle.dv_cascade.specs.Links.{Leads};
ghost use Rattle.dv_cascade.specs.Sound.{HasSoundLinks};
ghost use Rattle.dv_cascade.specs.Chains.{IsClosed, IsReached};

/// Does nothing. Its clauses say that the rows that are reached from a target are the least set that has the target and
/// each child that a link leads to from a row of it: they are such a set, and within every one.
pub fn a_closure_is_the_least_closed_set()
    ensures target { (w : World) (d : definition.Definition) (c : cascading.Cascading)
        (target : key.RowKey) → IsSome (map.get w.rows target) → IsReached w d c target target }
    ensures closed { (w : World) (d : definition.Definition) (c : cascading.Cascading)
        (target : key.RowKey) → IsClosed (Leads w d c) (IsReached w d c target) }
    ensures least { (w : World) (d : definition.Definition) (c : cascading.Cascading)
        (target : key.RowKey) (set : key.RowKey → Bool)
        → IsClosed (Leads w d c) (λ key. set key ≡ true) → set target ≡ true
        → (key : key.RowKey) → IsReached w d c target key → set key ≡ true }
{}

/// Does nothing. Its clause says that a table of an accepted definition is the child of at most one parental relationship.
pub fn an_accepted_definition_has_one_parent()
    ensures { (d : definition.Definition) → IsSound d → HasOneParent d }
{}

/// Does nothing. Its clause says that what a new parent of a row is handed on to has owners, where the row has one.
pub fn rows_that_a_new_parent_reaches_have_owners()
    ensures { (w : World) (d : definition.Definition) (moved key : key.RowKey) → IsSound d
        → w.shape ≡ shape_of d → is_owned w.shape moved.table ≡ true
        → IsReached w d Reparent moved key → is_owned w.shape key.table ≡ true }
{}

/// Does nothing. Its clause says that no row comes to be above itself where one row gets parents that are not below it.
pub fn new_parents_that_are_not_under_a_row_make_no_circle()
    ensures { (old new : World) (d : definition.Definition) (row : key.RowKey) → HasNoCircle old d
        → AddsLinksOf old new d row (IsNotUnder old d row) → HasNoCircle new d }
{}

/// Does nothing. Its clause says that a world with the rows of one whose links are sound has sound links too.
pub fn links_are_of_the_rows_alone()
    ensures { (old new : World) (d : definition.Definition) → new.rows ≡ old.rows
        → HasSoundLinks old d → HasSoundLinks new d }
{}

/// Does nothing. Its clause says that the links of a world without rows are sound.
pub fn an_empty_world_has_sound_links()
    ensures { (d : definition.Definition) → HasSoundLinks (empty d) d }
{}
