// What the exported functions without a width pass on to.
pub mod count;
pub mod files;
pub mod form;
pub mod letters;
pub mod window;
pub mod words;
