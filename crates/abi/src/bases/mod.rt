// Bases: every call at width 2.
pub mod pair;
pub mod store;
pub mod stream;
pub mod view;
