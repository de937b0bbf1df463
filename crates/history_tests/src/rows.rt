//! Tests of the rows in wide nodes: values worked out by hand, and random calls beside a tree for each level.
mod beside;
mod by_hand;
mod looked;
