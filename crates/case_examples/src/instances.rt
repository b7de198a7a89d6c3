// Matching over orders of three forms. The engine is written once, and knows only what every order promises.
pub mod list;
pub mod nested;
pub mod pair;
