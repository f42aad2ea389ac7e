mod expecting;
mod filling;
mod masks;
mod plans;
mod projections;
