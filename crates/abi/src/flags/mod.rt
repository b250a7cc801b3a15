// Flags: every call at width 1.
pub mod count;
pub mod pair;
pub mod store;
pub mod stream;
pub mod view;
pub mod window;
