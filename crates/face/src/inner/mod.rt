// Functions generic in the width.
pub mod pair;
pub mod parts;
pub mod store;
pub mod stream;
pub mod view;
