// Functions that ask something of their callers: the program `vectors`.
pub mod codes_cases;
pub mod numbers;
pub mod order_cases;
pub mod print;
pub mod views_cases;
