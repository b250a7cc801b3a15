pub mod give;
pub mod parts;
