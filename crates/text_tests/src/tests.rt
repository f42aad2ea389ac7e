mod constraints;
mod das;
mod dds;
mod errors;
mod expecting;
mod lists;
