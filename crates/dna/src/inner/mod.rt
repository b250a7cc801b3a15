// What the calls on .2bit files are made of.
pub mod marks;
pub mod numbers;
pub mod reading;
pub mod words;
pub mod writing;
