//! Tests of keepers that no file of cases can say: the cells of one in memory, and each of its
//! calls failing in turn. They stand outside dv_keeper, so that the library isn't proved twice.
#![tactic(auto)]

#[cfg(test)]
mod memory;
