//! The order of the keys tells them apart.
ghost use Rattle.dv_store.specs.Exact.{exact};

use crate::keys::Key;

impl dv_work::Key for Key {
    ghost exact = { exact };
}
