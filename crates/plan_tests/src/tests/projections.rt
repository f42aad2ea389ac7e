mod datasets;
mod marked;
mod members;
