mod expecting;
mod files;
mod floats;
mod lines;
mod lists;
mod outside;
mod values;
