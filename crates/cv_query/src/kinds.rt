// Queries by their number, and queries whose right sides name what they may.
mod numbers;

pub use numbers::query_numbered;
