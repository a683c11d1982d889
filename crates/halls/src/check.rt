// From a list to its verdict, checks 11 to 19 and 27, and to the places of its models and geometries.
pub mod check;
pub mod find;
pub mod geometry;
pub mod lists;
pub mod order;
pub mod pass;
pub mod scan;
pub mod sought;
pub mod triangle;
