//! The secret that two nodes share, the cookie: which bytes of a text it is, and the digest that shows that a node has it.
//!
//! It opens no file, draws no challenge and compares no digests, and it has no function that prints a cookie.
#![tactic(auto)]

mod cookie;
mod cookie_error;
mod cookies;
mod cookies_error;
mod digesting;
mod laws;
mod reading;

pub use cookie::Cookie;
pub use cookie_error::CookieError;
pub use cookies::Cookies;
pub use cookies_error::CookiesError;
pub use digesting::digest;
pub use laws::length_of_digest;
pub use reading::read_cookie;
